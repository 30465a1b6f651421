//! The pins that a pin's timing groups name as related.

ghost use Rattle.std.specs.Prelude.{◌≡◌, [], fold, option_copied, unwrap_or, IfOk};
ghost use Rattle.name_tables.specs.Distinct.{with_name};
ghost use Rattle.lib_cells.specs.Cells.{related_in, related_of};
ghost use Rattle.lib_cells.specs.Cells.{direction_of};

use crate::pin::{PinDir, is_output};
use lib_text::Group;
use name_tables::Names;
use std::alloc::Global;
use std::marker::Model;
use vg_num::Memory;
use vg_scan::Words;

/// The most names that a table takes.
const MOST_NAMES: usize = 4_294_967_295;

/// The pins that the timing groups of a pin group name as related, each once, in the order of the text. Contracts see
/// the list of their names. It takes no memory where there are none.
#[derive(Drop)]
pub struct RelatedPins {
    names: Option<Box<Names>>,
}

impl Model for RelatedPins {
    ghost use Rattle.std.specs.Prelude.{List, ℕ, [], option_map, unwrap_or};

    ghost Value = { List (List ℕ) };

    ghost view = { λ related. unwrap_or (option_map (λ names. names.value) related.names) [] };
}

impl RelatedPins {
    /// The pins of these names.
    fn new(alloc: Global, names: Names) -> Result<RelatedPins, Memory>
        ensures { IfOk result (λ related. related ≡ names) }
    {
        if names.is_empty() {
            return Ok(RelatedPins { names: None });
        }
        let names = Box::new(alloc, names)?;
        Ok(RelatedPins { names: Some(names) })
    }

    /// Their names, to be found by a table. `None`: there are none.
    pub fn names(&self) -> Option<&Names>
        ensures { unwrap_or (option_copied result) [] ≡ self.now }
    {
        match &self.names {
            Some(names) => Some(names),
            None => None,
        }
    }
}

/// Puts a name last where it is new.
pub(crate) fn add_name(names: &mut Names, name: &[u8]) -> Result<(), Memory>
    ensures { IfOk result (λ _. names.new ≡ with_name names.old name.now) }
{
    if MOST_NAMES <= names.len() {
        return Err(Memory);
    }
    names.intern(name)?;
    Ok(())
}

/// Puts the pins last that a timing group names as related, each that is new.
fn add_related(names: &mut Names, timing: &Group<'_>) -> Result<(), Memory>
    ensures { IfOk result (λ _. names.new ≡ fold with_name names.old (related_in timing.now)) }
{
    let Some(value) = timing.value_in(b"related_pin") else {
        return Ok(());
    };
    'word: for word in Words::new(value) {
        add_name(names, word)?;
    }
    Ok(())
}

/// The pins that the timing groups of a pin name as related, each once, where the pin is an output.
pub(crate) fn related_of(
    alloc: Global,
    pin: &Group<'_>,
    direction: PinDir,
) -> Result<RelatedPins, Memory>
    requires { direction ≡ direction_of pin.now }
    ensures { IfOk result (λ related. related ≡ related_of pin.now) }
{
    let mut names = Names::new(alloc);
    if is_output(direction) {
        'timing: for timing in pin.groups(b"timing") {
            add_related(&mut names, &timing)?;
        }
    }
    let related = RelatedPins::new(alloc, names)?;
    Ok(related)
}
