//! Instances that are put in, with their texts in one buffer.

ghost use Rattle.std.specs.Prelude.{◌≡◌, ◌++◌, ◌+◌, ◌^◌, ◌<◌, ◌∷◌, [], drop, length, take, IfOk, OnErr, OnOk};
ghost use Rattle.ver_patch.specs.CellPlaces.{all_texts, IsPlaced};
ghost use Rattle.ver_patch.specs.NewCells.{cell_of};
ghost use Rattle.vg_scan.specs.Lines.{part};

use std::alloc::Global;
use std::marker::Model;
use vg_num::Memory;
use vg_scan::{Span, text_at};

/// An instance that is put in, by its texts.
#[derive(Clone, Copy, Debug)]
pub struct CellTexts<'a> {
    pub cell: &'a [u8],
    /// Its own name.
    pub name: &'a [u8],
    /// The cell's input pin.
    pub input: &'a [u8],
    /// The cell's output pin.
    pub output: &'a [u8],
    /// The net at the input.
    pub from: &'a [u8],
    /// The net at the output.
    pub to: &'a [u8],
}

/// Where the texts of an instance begin, one behind the other, and where the last one ends.
#[derive(Clone, Copy, Debug)]
struct Place {
    cell: usize,
    name: usize,
    input: usize,
    output: usize,
    from: usize,
    to: usize,
    end: usize,
}

/// Instances that are put in, one after another. Their texts stand in one buffer, so that none of them takes memory of
/// its own. Contracts see the list of them.
#[derive(Drop)]
pub struct NewCells {
    text: Vec<u8>,
    places: Vec<Place>,
}

impl Model for NewCells {
    ghost use Rattle.std.specs.Prelude.{List, map, length};
    ghost use Rattle.std.specs.List.{All};
    ghost use Rattle.ver_patch.specs.CellPlaces.{cell_in, IsPlace};
    ghost use Rattle.ver_patch.specs.NewCells.{NewCell};

    ghost Value = { List NewCell };

    ghost view = { λ cells. map (cell_in cells.text.items) cells.places.items };

    ghost invariant = { λ cells. All (IsPlace (length cells.text.items)) cells.places.items };
}

/// What stands between two places of a text.
fn between(text: &[u8], from: usize, to: usize) -> &[u8]
    ensures { result.now ≡ part text.now from to }
{
    text_at(text, Span { from, to })
}

/// Puts a text last, and answers where it ends. Answers `Memory` where there is no room; nothing changes then.
fn put_text(text: &[u8], to: &mut Vec<u8>) -> Result<usize, Memory>
    ensures last { OnOk result (to.new.items ≡ to.old.items ++ text.now) }
    ensures end { IfOk result (λ end. end ≡ length to.new.items) }
    ensures begun { take (length to.old.items) to.new.items ≡ to.old.items }
{
    to.extend_from_slice(text)?;
    Ok(to.len())
}

/// Puts the texts of an instance last, and answers their places. Answers `Memory` where there is no room; then some of
/// them may stand there.
fn put_texts(cell: &CellTexts<'_>, to: &mut Vec<u8>) -> Result<Place, Memory>
    ensures last { OnOk result (to.new.items ≡ to.old.items ++ all_texts (cell_of cell.now)) }
    ensures places { IfOk result (IsPlaced to.old.items (cell_of cell.now)) }
    ensures begun { take (length to.old.items) to.new.items ≡ to.old.items }
{
    let begin = to.len();
    let name = put_text(cell.cell, to)?;
    let input = put_text(cell.name, to)?;
    let output = put_text(cell.input, to)?;
    let from = put_text(cell.output, to)?;
    let to_net = put_text(cell.from, to)?;
    let end = put_text(cell.to, to)?;
    Ok(Place {
        cell: begin,
        name,
        input,
        output,
        from,
        to: to_net,
        end,
    })
}

impl NewCells {
    /// No instances.
    pub fn new(alloc: Global) -> NewCells
        ensures { result ≡ [] }
    {
        NewCells {
            text: Vec::new(alloc),
            places: Vec::new(alloc),
        }
    }

    /// How many there are.
    pub fn len(&self) -> usize
        ensures is { result ≡ length self.now }
        ensures few { result < 2 ^ 63 }
    {
        self.places.len()
    }

    /// Puts an instance last. Answers `Memory` where there is no room; nothing changes then.
    pub fn push(&mut self, cell: &CellTexts<'_>) -> Result<(), Memory>
        ensures last { OnOk result (self.new ≡ self.old ++ cell_of cell.now ∷ []) }
        ensures unchanged { OnErr result (self.new ≡ self.old) }
    {
        let before = self.text.len();
        let Ok(place) = put_texts(cell, &mut self.text) else {
            self.text.truncate(before);
            return Err(Memory);
        };
        match self.places.push(place) {
            Ok(()) => Ok(()),
            Err(_) => {
                self.text.truncate(before);
                Err(Memory)
            }
        }
    }

    /// The instance of a number, from 0.
    pub fn texts(&self, number: usize) -> CellTexts<'_>
        requires { number < length self.now }
        ensures { drop number self.now ≡ cell_of result ∷ drop (number + 1) self.now }
    {
        let place = self.places[number];
        let text = self.text.as_slice();
        CellTexts {
            cell: between(text, place.cell, place.name),
            name: between(text, place.name, place.input),
            input: between(text, place.input, place.output),
            output: between(text, place.output, place.from),
            from: between(text, place.from, place.to),
            to: between(text, place.to, place.end),
        }
    }
}
