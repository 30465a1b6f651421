//! Laws of the program's runs. Their functions do nothing: each one's contract is the law, which a proof may cite.

ghost use Rattle.run_laws.specs.Laws.{CertificatesAreWritten, ValidCertificatesAreBest, WrittenCertificatesCheck, WrittenFilesRetime};

/// Let a request in mode `best` be answered by a report of a best placement. Then the written netlist and the written
/// parasitics are, with the same library and constraints, a design, in which the net that was asked for re-times to
/// exactly the slack that was printed, with no sink of the wrong polarity. So mode `time` tells this slack of the
/// written files under the same prefix, or that a net on the way is too large.
pub fn written_files_retime()
    ensures { WrittenFilesRetime }
{}

/// Let a request in mode `best` name a certificate, and let its net not be refused. Then a certificate of the net is
/// written, with the placement and the slack that are reported, or with none.
pub fn certificates_are_written()
    ensures { CertificatesAreWritten }
{}

/// Let mode `best` have written a certificate of a net. Then mode `check`, with the same four files and this
/// certificate, answers by a report: that the certificate is valid, with exactly the slack that was reported, or none.
pub fn written_certificates_check()
    ensures { WrittenCertificatesCheck }
{}

/// Let a request in mode `check` be answered by a report, as it is in a run that ends with status 0. Then the file that
/// it names as a certificate is a valid one of the net that it asks for, as the line says. Whoever made it, its
/// placement is good for this net of the four files and has the slack of the line, and no good placement has more; or
/// the line says that there is none, and no placement is good.
pub fn valid_certificates_are_best()
    ensures { ValidCertificatesAreBest }
{}
