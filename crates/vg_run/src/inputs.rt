//! The inputs of a request, read in order.

ghost use Rattle.std.specs.Prelude.{◌≡◌, ◌⊎◌, ◌≤◌, [], IfOk, IfErr};
ghost use Rattle.vg_answer.specs.declared.input.Input.{Input as InputSpec};
ghost use Rattle.vg_run.specs.Inputs.{inputs as inputs_in, name_of, option_of, texts_read, AreRead};
ghost use Rattle.vg_run.specs.Outcomes.{IsUnread};
ghost use Rattle.vg_store.specs.States.{KeepsWriting};
ghost use Rattle.vg_store.specs.Writing.{FilesStay};

use std::alloc::Global;
use vg_answer::{DesignTexts, Input, InputText};
use vg_num::Row;
use vg_store::{Files, ReadAll, read_all};
use vg_words::{Ask, Mode, Opt};

/// What is wrong with an input.
#[derive(Drop)]
pub enum Flaw {
    /// It could not be read.
    Failed,
    /// It has more than 2^28 bytes.
    TooLong,
    /// It is not in its form: its fault and the line, as text.
    Faulty(Row<u8>),
}

/// The texts of the inputs, each empty until it is read.
#[derive(Drop)]
pub struct Texts {
    pub design: DesignTexts,
    pub cert: InputText,
    pub widths: InputText,
}

const SPEF_INPUTS: [Input; 1] = [Input::Spef];

const DESIGN_INPUTS: [Input; 4] = [Input::Spef, Input::Lib, Input::Verilog, Input::Cons];

const CHECK_INPUTS: [Input; 5] = [
    Input::Spef,
    Input::Lib,
    Input::Verilog,
    Input::Cons,
    Input::Cert,
];

const WIDTH_INPUTS: [Input; 5] = [
    Input::Spef,
    Input::Lib,
    Input::Verilog,
    Input::Cons,
    Input::Widths,
];

/// The option that names an input.
fn option_of(input: Input) -> Opt
    ensures { result ≡ option_of input }
{
    match input {
        Input::Spef => Opt::Spef,
        Input::Lib => Opt::Lib,
        Input::Verilog => Opt::Verilog,
        Input::Cons => Opt::Cons,
        Input::Cert => Opt::Cert,
        Input::Widths => Opt::Widths,
    }
}

/// The name of an input: that in the words, or, where the design is made up, `gen`.
pub(crate) fn name_of(ask: &Ask, input: Input) -> &str
    ensures { result.now ≡ name_of ask.now input }
{
    match ask.mode {
        Mode::Gen => "gen",
        _ => ask.text(option_of(input)),
    }
}

/// The inputs of a mode, in the order in which they are read.
fn inputs(mode: Mode) -> &'static [Input]
    ensures { result.now ≡ inputs_in mode }
{
    match mode {
        Mode::Wire | Mode::Segment => &SPEF_INPUTS,
        Mode::Time | Mode::Best | Mode::Frontier | Mode::Sta | Mode::Repair | Mode::Total =>
            &DESIGN_INPUTS,
        Mode::Check => &CHECK_INPUTS,
        Mode::Gen => &[],
        Mode::Width => &WIDTH_INPUTS,
    }
}

/// A text of no byte.
fn no_text(alloc: Global) -> InputText
    ensures { result.bytes.items ≡ [] }
{
    let bytes = Vec::new(alloc);
    InputText { bytes }
}

impl Texts {
    /// Nothing is read yet.
    fn new(alloc: Global) -> Texts {
        let design = DesignTexts {
            spef: no_text(alloc),
            lib: no_text(alloc),
            verilog: no_text(alloc),
            cons: no_text(alloc),
        };
        Texts {
            design,
            cert: no_text(alloc),
            widths: no_text(alloc),
        }
    }

    /// Puts the text of an input there.
    fn set(&mut self, input: Input, text: InputText)
        ensures own { texts_read self.new input ≡ text.bytes.items }
        ensures each { (other : InputSpec) → (other ≡ input) ⊎ (texts_read self.new other ≡ texts_read self.old other) }
    {
        match input {
            Input::Spef => self.design.spef = text,
            Input::Lib => self.design.lib = text,
            Input::Verilog => self.design.verilog = text,
            Input::Cons => self.design.cons = text,
            Input::Cert => self.cert = text,
            Input::Widths => self.widths = text,
        }
    }
}

/// Reads the inputs of a request in order. An error tells at which of them reading ended, and why.
pub fn read_inputs<F: Files>(
    alloc: Global,
    ask: &Ask,
    files: &mut F,
) -> Result<Texts, (Input, ReadAll)>
    ensures read { IfOk result (λ texts. AreRead (F.state files.old) ask.now (texts_read texts)) }
    ensures unread { IfErr result (IsUnread ask.now (F.state files.old, F.state files.new)) }
    ensures kept { FilesStay (F.state files.old) (F.state files.new) }
    ensures never_falls { (F.state files.old).read_faults ≤ (F.state files.new).read_faults }
    ensures writing { KeepsWriting (F.state files.old) (F.state files.new) }
{
    let mut texts = Texts::new(alloc);
    let order = inputs(ask.mode);
    'input: for input in order {
        match read_all(alloc, files, name_of(ask, *input)) {
            Ok(bytes) => texts.set(*input, InputText { bytes }),
            Err(cause) => return Err((*input, cause)),
        }
    }
    Ok(texts)
}
