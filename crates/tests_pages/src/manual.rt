//! Whether the manual page lists the options of the program, in their order.
//!
//! Its section of options begins with the line `.SH OPTIONS` and ends with the next line `.SH`. In it a line
//! `.BI \-\-mode " MODE"` lists an option: its second word is the name, in which each hyphen is written as `\-`.
ghost use Rattle.std.specs.Prelude.{◌≡◌, ◌≢◌, ◌++◌, ℕ, List, map, IfOk, IfSome, IsTrue, MatchBool, OnOk};
ghost use Rattle.std.specs.Str.{bytes_eq};
ghost use Rattle.vg_scan.specs.Lines.{words};
ghost use Rattle.vg_store.specs.States.{FilesState};
ghost use Rattle.tests_pages.specs.Manual.{argument, escaped, is_open_after, listed, listed_by, request, written_name, ListsOptions};

use std::alloc::Global;
use vg_num::Memory;
use vg_scan::{Words, next_line, text_at};
use vg_store::{Files, read_all};
use vg_words::{Opt, options};

/// What opens a section.
const SECTION: &[u8] = b".SH";

/// The section of options.
const OPTIONS: &[u8] = b"OPTIONS";

/// What lists an option there.
const ITEM: &[u8] = b".BI";

/// The first two words of a line, each empty where there is none.
fn first_words(line: &[u8]) -> (&[u8], &[u8])
    ensures request { result.0.now ≡ request (words line.now) }
    ensures argument { result.1.now ≡ argument (words line.now) }
{
    let mut words = Words::new(line);
    let Some(request) = words.next() else {
        return (b"", b"");
    };
    let Some(argument) = words.next() else {
        return (request, b"");
    };
    (request, argument)
}

/// Adds the option that a line lists, where the section of options is open or not, and answers whether it is after the
/// line.
fn take_line<'a>(line: &'a [u8], is_open: bool, found: &mut Vec<&'a [u8]>) -> Result<bool, Memory>
    ensures after { IfOk result (λ after. after ≡ is_open_after (words line.now) is_open) }
    ensures found { IfOk result (λ _. map (λ option. option.now) found.new.items
        ≡ map (λ option. option.now) found.old.items ++ listed_by (words line.now) is_open) }
{
    let (request, argument) = first_words(line);
    if is_open && request == ITEM {
        found.push(argument)?;
    }
    if request == SECTION {
        return Ok(argument == OPTIONS);
    }
    Ok(is_open)
}

/// The options that a page lists, in their order.
fn listed(alloc: Global, page: &[u8]) -> Result<Vec<&[u8]>, Memory>
    ensures { IfOk result (λ found. map (λ option. option.now) found.items ≡ listed page.now) }
{
    let mut found = Vec::new(alloc);
    let mut is_open = false;
    let mut at = 0usize;
    'line: while let Some((line, next)) = next_line(page, at) {
        is_open = take_line(text_at(page, line), is_open, &mut found)?;
        at = next;
    }
    Ok(found)
}

/// Adds a byte as a page writes it: a hyphen as `\-`.
fn push_escaped(text: &mut Vec<u8>, byte: u8) -> Result<(), Memory>
    ensures { OnOk result (text.new.items ≡ text.old.items ++ escaped byte) }
{
    if byte == b'-' {
        text.push(b'\\')?;
    }
    text.push(byte)?;
    Ok(())
}

/// The name of an option as a page writes it.
fn written_name(alloc: Global, option: Opt) -> Result<Vec<u8>, Memory>
    ensures { IfOk result (λ text. text.items ≡ written_name option) }
{
    let name = option.name().as_bytes();
    let mut text = Vec::new(alloc);
    'byte: for at in 0..name.len() {
        push_escaped(&mut text, name[at])?;
    }
    Ok(text)
}

fn is_name(alloc: Global, text: &[u8], option: Opt) -> Result<bool, Memory>
    ensures { IfOk result (λ same. same ≡ bytes_eq text.now (written_name option)) }
{
    Ok(text == written_name(alloc, option)?.as_slice())
}

/// Whether these texts are the names of these options, as a page writes them.
fn are_names(alloc: Global, found: &[&[u8]], options: &[Opt]) -> Result<bool, Memory>
    ensures { IfOk result (λ same. MatchBool same
        (map (λ option. option.now) found.now ≡ map written_name options.now)
        (map (λ option. option.now) found.now ≢ map written_name options.now)) }
{
    if found.len() != options.len() {
        return Ok(false);
    }
    'option: for at in 0..options.len() {
        if !is_name(alloc, found[at], options[at])? {
            return Ok(false);
        }
    }
    Ok(true)
}

/// Whether a page lists the options of the program, in their order.
fn lists_options(alloc: Global, page: &[u8]) -> Result<bool, Memory>
    ensures { IfOk result (λ lists. MatchBool lists (ListsOptions page.now) (ListsOptions page.now → ⊥)) }
{
    let found = listed(alloc, page)?;
    are_names(alloc, &found, options())
}

/// Tells whether the manual page of this name lists the options of the program, in their order.
pub(crate) fn report_manual<F: Files>(
    alloc: Global,
    files: &mut F,
    name: &str,
    report: &mut String,
) -> Result<bool, Memory>
    ensures { IfOk result (λ lists. IsTrue lists → IfSome ((F.state files.old).holds name.now) ListsOptions) }
{
    let page = match read_all(alloc, files, name) {
        Ok(page) => page,
        Err(fault) => {
            writeln!(report, "{name}: {fault}")?;
            return Ok(false);
        }
    };
    let lists = lists_options(alloc, &page)?;
    if lists {
        writeln!(
            report,
            "{name}: {} options as in the program",
            options().len()
        )?;
    } else {
        writeln!(report, "{name}: other options than in the program")?;
    }
    Ok(lists)
}
