//! The library.
ghost use Rattle.std.specs.Prelude.{◌≡◌};
ghost use Rattle.vg_gen.specs.Texts.{library_text};

/// A library of a driver, a buffer and an inverter.
pub(crate) fn library() -> &'static [u8]
    ensures { result.now ≡ library_text }
{
    br#"library (demo) {
  delay_model : generic_cmos;
  time_unit : "1ps";
  capacitive_load_unit (1, ff);
  cell (DRV) { area : 4; dont_use : true;
    pin (A) { direction : input; capacitance : 2; }
    pin (Z) { direction : output; function : "A";
      timing () { related_pin : "A"; intrinsic_rise : 10; intrinsic_fall : 9;
        rise_resistance : 1; fall_resistance : 0.9; } } }
  cell (BUF) { area : 2;
    pin (A) { direction : input; capacitance : 2; }
    pin (Z) { direction : output; function : "A";
      timing () { related_pin : "A"; intrinsic_rise : 20; intrinsic_fall : 18;
        rise_resistance : 0.5; fall_resistance : 0.4; } } }
  cell (INV) { area : 1;
    pin (A) { direction : input; capacitance : 1; }
    pin (ZN) { direction : output; function : "!A";
      timing () { related_pin : "A"; intrinsic_rise : 10; intrinsic_fall : 10;
        rise_resistance : 0.5; fall_resistance : 0.5; } } }
}
"#
}
