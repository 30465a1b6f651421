ghost use Rattle.vg_words.specs.Laws.{CapsAreRead, CertsAreOfOneNet, FilesDiffer, OneOrAll, OneRequest, OutputsArePaired, PartsAreFew, SizesAreSmall, TargetsAreRead};

/// Words are one request at most. The function does nothing: its contract is the law, which a proof may cite.
pub fn one_request()
    ensures { OneRequest }
{}

/// A request asks for one net in modes `wire`, `check` and `width`, for one net or for all nets in modes `time`,
/// `best`, `frontier`, `segment` and `repair`, for all nets in mode `total`, and names none in modes `gen` and `sta`.
/// The function does nothing: its contract is the law, which a proof may cite.
pub fn one_or_all()
    ensures { OneOrAll }
{}

/// A request that names a certificate names a net, and does not ask for all. The function does nothing: its contract is
/// the law, which a proof may cite.
pub fn certs_are_of_one_net()
    ensures { CertsAreOfOneNet }
{}

/// In mode `total` a request names both files that are written, or neither. The function does nothing: its contract is
/// the law, which a proof may cite.
pub fn outputs_are_paired()
    ensures { OutputsArePaired }
{}

/// In a request no two options name one file. The function does nothing: its contract is the law, which a proof may
/// cite.
pub fn files_differ()
    ensures { FilesDiffer }
{}

/// A request with a cap asks for the number that it writes. The function does nothing: its contract is the law, which a
/// proof may cite.
pub fn caps_are_read()
    ensures { CapsAreRead }
{}

/// In mode `gen` a request asks for a size of 1 to 4000. The function does nothing: its contract is the law, which a
/// proof may cite.
pub fn sizes_are_small()
    ensures { SizesAreSmall }
{}

/// In mode `segment` a request asks for 1 to 64 parts. The function does nothing: its contract is the law, which a
/// proof may cite.
pub fn parts_are_few()
    ensures { PartsAreFew }
{}

/// A request with a target asks for the time that it writes, and one without for 0. The function does nothing: its
/// contract is the law, which a proof may cite.
pub fn targets_are_read()
    ensures { TargetsAreRead }
{}
