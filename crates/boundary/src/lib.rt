// What C hands over and gets back, as the values of document 01: sizes, settings, lights and rectangles from numbers and arrays; an answer as the number that
// is returned, with the value that it carries in its places.
#![tactic(auto)]

ghost use Rattle.std.specs.Prelude.{◌≡◌};
ghost use Rattle.rules.specs.Answers.{said, left};
ghost use Rattle.rules.specs.Promise.{band_said};
ghost use Rattle.boundary.specs.Handed.{size, settings_in, rgb_in, rect_in, figure_in, finding_in, figure_after};

use rules::{Band, Finding, Rect, Refusal, Rgb, Settings, Size};

// ---- what is handed over: functions, since a From for a type of `rules` can stand in `rules` alone

// The size that two numbers are.
pub fn sized(w: u64, h: u64) -> Size
    ensures { result ≡ size w h }
{
    Size {
        w: w as usize,
        h: h as usize,
    }
}

// The six settings.
pub fn settings_in(from: &[u64; 6]) -> Settings
    ensures { result ≡ settings_in from.now }
{
    Settings {
        s: from[0] as usize,
        r: from[1] as usize,
        omega: from[2],
        e: from[3],
        t0: from[4],
        share: from[5],
    }
}

// A light.
pub fn rgb_in(from: &[u8; 3]) -> Rgb
    ensures { result ≡ rgb_in from.now }
{
    Rgb {
        r: from[0],
        g: from[1],
        b: from[2],
    }
}

// A rectangle: first column, first row, width, height.
pub fn rect_in(from: &[u64; 4]) -> Rect
    ensures { result ≡ rect_in from.now }
{
    Rect {
        x: from[0] as usize,
        y: from[1] as usize,
        w: from[2] as usize,
        h: from[3] as usize,
    }
}

// ---- what is handed back

// The number that an answer says.
pub fn number<T: Copy>(answer: Result<T, Refusal>) -> u8
    ensures { result ≡ said answer }
{
    match answer {
        Ok(_) => 0,
        Err(refusal) => u8::from(refusal),
    }
}

// The number that an answer of Clear or Replace says; the comparisons of a call that is done go into the place.
pub fn counted(outcome: Result<u64, Refusal>, comparisons: &mut u64) -> u8
    ensures { (result ≡ said outcome) × (comparisons.new ≡ left outcome comparisons.old) }
{
    if let Ok(count) = outcome {
        *comparisons = count;
    }
    number(outcome)
}

// The number that Light's answer says; a light that was found and its comparisons go into the two places.
pub fn lit(found: Result<Finding, Refusal>, lights: &mut [u8; 3], comparisons: &mut u64) -> u8
    ensures { (result ≡ said found)
        × (finding_in lights.new comparisons.new ≡ left found (finding_in lights.old comparisons.old)) }
{
    if let Ok(f) = found {
        *lights = [f.light.r, f.light.g, f.light.b];
        *comparisons = f.comparisons;
    }
    number(found)
}

// The number that Band figure's answer says; the figure goes into the two places.
pub fn figured(band: Band, mean: &mut f64, least: &mut f64) -> u8
    ensures { (result ≡ band_said band)
        × (figure_in mean.new least.new ≡ figure_after band (figure_in mean.old least.old)) }
{
    match band {
        Band::Figure(f) => {
            *mean = f.mean;
            *least = f.least;
            0
        }
        Band::Refused(refusal) => u8::from(refusal),
    }
}
