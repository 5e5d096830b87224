ghost use Rattle.lock_fencing.specs.Fencing.{Fenced, FencedInViews, TokensOfViews, TokensRise};
ghost use Rattle.lock_fencing.specs.Guards.{NeverBack, NoneBelow, NoneOlder, RefusesBelow};
ghost use Rattle.lock_fencing.specs.Stamped.{DeploymentsAreOfTables, SaidSpell, StampedSpell};

use law_processes::deployments_are_synchronous;
use lock_table::{LockTable, stamps_spell};

/// The law of fencing. In a virtually synchronous trace of members that keep the table, two grants in one view with one token are one: of the same lock, to the same holder.
/// If each command spells the view in which it is sent, and each view's creator enters it with its own state, that holds of any two views, also on two sides of a partition:
/// a grant has a token of its view, and of two grants the older one has the lower token. It does nothing.
pub fn tokens_fence()
    ensures within { FencedInViews }
    ensures of_views { TokensOfViews }
    ensures across { Fenced }
    ensures rise { TokensRise }
{}

/// The law of deployments of tables. What happens in one is a trace of members that keep the table. If each command that is handed to a member's `send` spells the view in which
/// the member is then, each command spells the view in which it is sent; so it is if all that is sent was said as a node of the program says it (`udp_runs::run_member`). So then the law of fencing holds of all that happens, whatever the network loses, doubles, or cuts.
/// It does nothing.
pub fn deployments_fence()
    ensures of_tables { DeploymentsAreOfTables }
    ensures stamped { StampedSpell }
    ensures said { SaidSpell }
{
    deployments_are_synchronous::<LockTable>();
    stamps_spell();
}

/// The law of guards. A guard refuses the tokens below the greatest one that it served, and no others. So after it has served a grant's holder it refuses the holder of each older
/// grant, under the premises of `tokens_fence`, whatever else is asked of it. It does nothing.
pub fn guards_refuse_older()
    ensures below { RefusesBelow }
    ensures never_back { NeverBack }
    ensures none_below { NoneBelow }
    ensures none_older { NoneOlder }
{}
