//! What is printed is read again. Each call does nothing, and its clause is the law.
ghost use Rattle.std.specs.Prelude.{◌≡◌, ℕ, ◌^◌, ◌<◌, ◌≤◌, ℤ, pos, unsigned_abs};
ghost use Rattle.std.specs.Fmt.{signed_decimal};
ghost use Rattle.vg_num.specs.Number.{scaled, whole_of};
ghost use Rattle.vg_num.specs.Printed.{scaled_text};

/// Of a number of at most 10^26 in size, `read_whole` reads what `print_signed` writes as that number.
pub fn reads_signed_again()
    ensures { (n : ℤ) → unsigned_abs n ≤ 10 ^ 26 → whole_of (signed_decimal n) ≡ Ok n }
{}

/// Of a number within its limit, `read_scaled` reads what `print_scaled` writes at as many places as that number.
pub fn reads_scaled_again()
    ensures { (n places most : ℕ) → n < 2 ^ 64 → n ≤ most → scaled (pos places) most (scaled_text n places) ≡ Ok n }
{}
