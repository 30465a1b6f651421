//! Laws of the instances of changed netlists. Their functions do nothing: each one's contract is the law, which a proof
//! may cite.

ghost use Rattle.ver_patch_laws.specs.InstanceLaws.{InstancesDiffer, InstancesStay};

/// The instances of the text of a changed netlist are the old ones, in order, each with its name, its cell and its
/// pins, and then the new ones.
pub fn instances_stay()
    ensures { InstancesStay }
{}

/// Where the new instances have names of their own, no instance of the text of a changed netlist is named twice.
pub fn instances_differ()
    ensures { InstancesDiffer }
{}
