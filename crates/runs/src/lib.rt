// Lists of calls on a site and its carrier, and what holds after each. The functions only state what is proved: there is
// nothing to compute.
#![tactic(auto)]

ghost use Rattle.runs.specs.Law.{Law};
ghost use Rattle.runs.specs.Broadcast.{Broadcasts};
ghost use Rattle.runs.specs.Examples.{Happens, dropped_off_late, dropped_off_early, taken_over};

use base::value::Value;

fn lawful_runs<V: Value>()
    ensures { Law V.Value.alike }
{}

fn broadcast_clauses<V: Value>()
    ensures { Broadcasts V.Value.alike }
{}

fn dropped_off_late()
    ensures { Happens dropped_off_late }
{}

fn dropped_off_early()
    ensures { Happens dropped_off_early }
{}

fn taken_over()
    ensures { Happens taken_over }
{}

// The law of a site: it holds after every list of calls, for every type of values.
pub fn law_holds<V: Value>()
    ensures { Law V.Value.alike }
{
    lawful_runs::<V>();
}

// What the broadcast promises: it holds after every list of calls, for every type of values.
pub fn broadcast_holds<V: Value>()
    ensures { Broadcasts V.Value.alike }
{
    broadcast_clauses::<V>();
}

// Three short histories, in which a leader drops off half way or is recalled; each answer is computed from the definitions.
pub fn examples_hold()
    ensures late { Happens dropped_off_late }
    ensures early { Happens dropped_off_early }
    ensures over { Happens taken_over }
{
    dropped_off_late();
    dropped_off_early();
    taken_over();
}
