//! The end of an app's exchanges.

ghost use Rattle.std.specs.Prelude.{◌≡◌};
ghost use Rattle.free_end.specs.Closed.{IsClosed};

use free_jobs::firsts::Firsts;
use free_jobs::jobs::Job;
use free_plant::naming::Naming;
use free_plant::ports::Port;
use free_plant::wires::Wire;
use irt_base::list::Items;
use iso_app::IsoApp;
use iso_rules::turn::Turn;

/// Closes the exchanges of an app, and gives its turns.
pub fn close<A: IsoApp, N: Naming + Firsts<A>>(
    wire: Wire<N>,
    port: Port<N>,
    job: Job<A, N>,
) -> Items<Turn>
    requires port { port.number ≡ wire }
    requires job { job.number ≡ wire }
    ensures turns { result ≡ job.turns }
    ensures closed { IsClosed A.reply A.next_state N.firsts N.start wire job.found port job.turns }
{
    let (output_taker, input_giver) = port.into_passes();
    let (turns, input_taker, output_giver) = job.into_passes();
    wire.close(output_taker, input_giver, input_taker, output_giver);
    turns
}
