//! The texts of inputs.

ghost use Rattle.std.specs.Prelude.{◌≤◌, ◌^◌, length};

/// The text of an input: at most 2^28 bytes.
#[derive(Drop)]
pub struct InputText {
    pub bytes: Vec<u8>,
    pub ghost short: { length bytes.items ≤ 2 ^ 28 },
}

/// The texts of the four files of a design.
#[derive(Drop)]
pub struct DesignTexts {
    pub spef: InputText,
    pub lib: InputText,
    pub verilog: InputText,
    pub cons: InputText,
}
