//! Laws of a netlist's places in its text. Their functions do nothing: each one's contract is the law, which a proof
//! may cite.

ghost use Rattle.ver_patch.specs.Laws.{HeadsEndFirst, SpansRise, SpansStand};

use ver_syntax::items_stand_at_their_start;
use ver_text::tokens_stand_in_order;

/// The connections of a netlist that are one net each stand in its text one after another, as its pins do, behind the
/// end of the module's head and before its `endmodule`.
pub fn spans_rise()
    ensures head { HeadsEndFirst }
    ensures stand { SpansStand }
    ensures rise { SpansRise }
{
    tokens_stand_in_order();
    items_stand_at_their_start();
}
