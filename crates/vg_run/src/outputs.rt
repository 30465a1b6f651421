//! The names of the files that are written.

ghost use Rattle.std.specs.Prelude.{◌≡◌, [], option_map, unwrap_or};
ghost use Rattle.vg_run.specs.Inputs.{written_cert};
ghost use Rattle.vg_run.specs.Run.{output_name};

use vg_answer::Output;
use vg_words::{Ask, Mode};

/// The name of the certificate that mode `best` is to write, if the words name it; mode `check` reads it.
pub(crate) fn written_cert(ask: &Ask) -> Option<&str>
    ensures { option_map (λ name. name.now) result ≡ written_cert ask.now }
{
    match ask.mode {
        Mode::Best => match &ask.cert {
            None => None,
            Some(name) => Some(name.as_str()),
        },
        _ => None,
    }
}

/// The name of a file that is written, where the words name it.
pub(crate) fn output_name(ask: &Ask, output: Output) -> Option<&str>
    ensures { option_map (λ name. name.now) result ≡ output_name ask.now output }
{
    let name = match output {
        Output::Netlist => &ask.out_verilog,
        Output::Parasitics => &ask.out_spef,
        Output::Certificate => return written_cert(ask),
    };
    match name {
        None => None,
        Some(name) => Some(name.as_str()),
    }
}

/// That name as a text, empty where there is none.
pub(crate) fn output_text(ask: &Ask, output: Output) -> &str
    ensures { result.now ≡ unwrap_or (output_name ask.now output) [] }
{
    match output_name(ask, output) {
        Some(name) => name,
        None => "",
    }
}
