// Why each call is refused, or that it is accepted. No call is asked for anything: the size is judged first, and the tests after it may ask for a good one.
#![tactic(auto)]

ghost use Rattle.std.specs.Prelude.{◌≡◌, ◌||◌, length};
ghost use Rattle.rules.specs.Shape.{described};
ghost use Rattle.rules.specs.Good.{GoodSize};
ghost use Rattle.rules.specs.Answers.{said};
ghost use Rattle.rules.specs.Refusals.{bad_frame, bad_map, bad_mask, bad_work, bad_seen, refuse_light, refuse_clear, refuse_replace, refuse_haze, refuse_band};

use judge::{
    refuse, wrong_band, wrong_entries, wrong_frame, wrong_light, wrong_map, wrong_mask, wrong_rect,
    wrong_seen, wrong_settings, wrong_size, wrong_work,
};
use rules::{Rect, Refusal, Rgb, Settings, Size};

// How much of each memory Clear and Replace are lent.
#[derive(Clone, Copy)]
pub struct Lengths {
    pub mask: usize,
    pub frame: usize,
    pub map: usize,
    pub picture: usize,
    pub work: usize,
}

#[tactic(auto, unfolding(rules::specs::Refusals::refuse_light))]
pub fn refuse_light(
    z: Size,
    k: Settings,
    mask: &[u8],
    frame: usize,
    work: usize,
) -> Result<(), Refusal>
    ensures { said result ≡ refuse_light z k (length mask.now) (bad_seen mask.now) frame work }
{
    refuse(wrong_size(z), Refusal::Size)?;
    refuse(wrong_settings(k), Refusal::Settings)?;
    refuse(wrong_frame(z, frame), Refusal::Frame)?;
    refuse(
        wrong_mask(z, mask.len()) || wrong_work(z, work),
        Refusal::Loan,
    )?;
    refuse(wrong_seen(mask), Refusal::Unseen)
}

// The test of 4: what Clear and Replace are lent beside the frame.
fn wrong_loan(z: Size, n: Lengths) -> bool
    requires { GoodSize (described z) }
    ensures { result ≡ (bad_mask z n.mask || bad_frame z n.picture || bad_map z n.map || bad_work z n.work) }
{
    wrong_mask(z, n.mask)
        || wrong_frame(z, n.picture)
        || wrong_map(z, n.map)
        || wrong_work(z, n.work)
}

#[tactic(auto, unfolding(rules::specs::Refusals::refuse_clear))]
pub fn refuse_clear(z: Size, k: Settings, a: Rgb, n: Lengths) -> Result<(), Refusal>
    ensures { said result ≡ refuse_clear z k a n.mask n.frame n.map n.picture n.work }
{
    refuse(wrong_size(z), Refusal::Size)?;
    refuse(wrong_settings(k), Refusal::Settings)?;
    refuse(wrong_frame(z, n.frame), Refusal::Frame)?;
    refuse(wrong_loan(z, n), Refusal::Loan)?;
    refuse(wrong_light(a), Refusal::Light)
}

// Replace asks of the rectangle c and its new pixels after Clear's tests.
#[tactic(auto, unfolding(rules::specs::Refusals::bad_new, rules::specs::Refusals::refuse_clear, rules::specs::Refusals::refuse_replace))]
pub fn refuse_replace(
    z: Size,
    k: Settings,
    a: Rgb,
    c: Rect,
    new: usize,
    n: Lengths,
) -> Result<(), Refusal>
    ensures { said result ≡ refuse_replace z k a c new n.mask n.frame n.map n.picture n.work }
{
    refuse_clear(z, k, a, n)?;
    refuse(wrong_rect(z, c), Refusal::Place)?;
    refuse(new != 3 * (c.w * c.h), Refusal::Pixels)
}

#[tactic(auto, unfolding(rules::specs::Refusals::refuse_haze))]
pub fn refuse_haze(z: Size, a: Rgb, clean: usize, map: &[u16], hazed: usize) -> Result<(), Refusal>
    ensures { said result ≡ refuse_haze z a clean map.now hazed }
{
    refuse(wrong_size(z), Refusal::Size)?;
    refuse(wrong_frame(z, clean), Refusal::Frame)?;
    refuse(
        wrong_frame(z, hazed) || wrong_map(z, map.len()),
        Refusal::Loan,
    )?;
    refuse(wrong_light(a), Refusal::Light)?;
    refuse(wrong_entries(map), Refusal::Entry)
}

#[tactic(auto, unfolding(rules::specs::Refusals::refuse_band))]
pub fn refuse_band(z: Size, map: &[u16], from: usize, to: usize) -> Result<(), Refusal>
    ensures { said result ≡ refuse_band z map.now from to }
{
    refuse(wrong_size(z), Refusal::Size)?;
    refuse(wrong_map(z, map.len()), Refusal::Loan)?;
    refuse(wrong_band(z, from, to), Refusal::Place)?;
    refuse(wrong_entries(map), Refusal::Entry)
}
