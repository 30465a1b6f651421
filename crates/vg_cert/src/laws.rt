//! What is written is read again. The call does nothing, and its clauses are the law.

ghost use Rattle.vg_cert.specs.Laws.{TextsAreFaultless, TextsDenote};

/// The text of a certificate has no fault, and denotes that certificate: `read_certificate` gives what `take_text` has
/// written.
pub fn reads_certificates_again()
    ensures faultless { TextsAreFaultless }
    ensures denotes { TextsDenote }
{}
