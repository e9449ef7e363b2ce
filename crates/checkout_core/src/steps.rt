//! One event, and a list of them.
ghost use Rattle.std.specs.Prelude.{◌≡◌, ◌<◌, ◌^◌, None, Some, length, MatchResult};
ghost use Rattle.checkout_core.specs.Steps.{step_of, replay, StopsAt};

use crate::event::Event;
use crate::state::State;

/// The event isn't a step of the state.
#[derive(Clone, Copy)]
pub struct Refused;

/// Takes one event. If it isn't a step, the state doesn't change. It takes no memory.
pub fn step(state: &mut State, event: Event) -> Result<(), Refused>
    ensures { MatchResult result (λ _. step_of state.old event ≡ Some state.new)
        (λ _. (step_of state.old event ≡ None) × (state.new ≡ state.old)) }
{
    let Some(effect) = state.effect(event) else {
        return Err(Refused);
    };
    state.apply(effect);
    Ok(())
}

/// Takes the events in order. An error gives the place of the first that isn't a step, and the
/// state is then the one before it. It takes no memory.
pub fn replay(state: &mut State, events: &[Event]) -> Result<(), u32>
    requires { length events.now < 2 ^ 32 }
    ensures { MatchResult result (λ _. replay state.old events.now ≡ Some state.new)
        (StopsAt state.old events.now state.new) }
{
    let end = events.len() as u32;
    for at in 0..end {
        match step(state, events[at as usize]) {
            Ok(()) => {}
            Err(Refused) => return Err(at),
        }
    }
    Ok(())
}
