// Refresh, one round of a refresh and a refreshed pass, and the rounds of a detach, as storage behaves by the strip. An inner layer,
// not delivered.
#![tactic(auto)]

ghost use Rattle.std.specs.Prelude.{◌+◌, ◌*◌, ◌≤◌, ◌≡◌, drop};
ghost use Rattle.lane_rules.specs.Steps.{refreshed};
ghost use Rattle.lane_rules.specs.Rounds.{rounds};
ghost use Rattle.lane_rules.specs.Calls.{view_with};
ghost use Rattle.lane_laws.specs.Clauses.{round_from};
ghost use Rattle.lane_laws.specs.Ends.{detach_work};

use lane_rules::{Answer, ErrorByte, Failure, Said, View};
use masks::clear_lowest;
use passes::{cached_pass, refreshed_pass};
use strips::next_byte;

// Byte 0 sets the window to the attached lanes; byte 1 first clears the lowest of them; byte 2 is an error, all unchanged.
#[tactic(auto, unfolding(lane_rules::specs::Steps::refreshed))]
fn refresh(byte: u8, view: &mut View) -> Result<(), ErrorByte>
    ensures said { result ≡ (refreshed byte view.old.attached view.old.window).said }
    ensures view { let f = refreshed byte view.old.attached view.old.window in
        view.new ≡ view_with view.old f.attached f.window view.old.retired }
{
    match byte {
        0 => {}
        1 => view.attached = clear_lowest(view.attached),
        _ => return Err(ErrorByte),
    }
    view.window = view.attached;
    Ok(())
}

// A refresh by the next byte of the strip, and then a refreshed pass, unless the refresh failed.
fn round_of(strip: &mut &[u8], view: &mut View) -> Said
    ensures said { result ≡ (round_from view.old strip.old.now 0).said }
    ensures view { let r = round_from view.old strip.old.now 0 in
        view.new ≡ view_with view.old r.attached r.window view.old.retired }
    ensures strip { strip.new.now ≡ drop (round_from view.old strip.old.now 0).read strip.old.now }
{
    refresh(next_byte(strip), view)?;
    refreshed_pass(strip, view)
}

// Rounds until a yes, from where another part of the call left off, at most as many as are lent. The rounds left fall; those made are
// told, each refresh begun counting, a failed one too.
fn rounds_of(strip: &mut &[u8], lent: u32, view: &mut View) -> Answer
    ensures answer { let v = view.old in result ≡ (rounds strip.old.now v.height lent 0 v.attached v.window 0).answer }
    ensures view { let v = view.old in let e = rounds strip.old.now v.height lent 0 v.attached v.window 0 in
        view.new ≡ view_with v e.attached e.window v.retired }
    ensures strip { let v = view.old in
        strip.new.now ≡ drop (rounds strip.old.now v.height lent 0 v.attached v.window 0).read strip.old.now }
{
    let mut left = lent;
    while left > 0 {
        left -= 1;
        let made = lent - left;
        if round_of(strip, view).map_err(|_| Failure::Offset(made))? {
            return Ok(made);
        }
    }
    Err(Failure::Budget(lent))
}

// The cached pass, and then rounds until a yes. The pass reads at most a byte to a lane, and each round one more, for its refresh.
pub fn detach(strip: &mut &[u8], lent: u32, view: &mut View) -> Answer
    ensures answer { result ≡ (detach_work view.old strip.old.now lent).answer }
    ensures view { let e = detach_work view.old strip.old.now lent in
        view.new ≡ view_with view.old e.attached e.window view.old.retired }
    ensures strip { strip.new.now ≡ drop (detach_work view.old strip.old.now lent).read strip.old.now }
    ensures few { let v = view.old in (detach_work v strip.old.now lent).read ≤ v.height + lent * (v.height + 1) }
{
    if cached_pass(strip, view)? {
        return Ok(0);
    }
    rounds_of(strip, lent, view)
}
