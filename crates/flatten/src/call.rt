// The whole call: the turns over the tags, and the answer.
ghost use Rattle.std.specs.Prelude.{◌≡◌, ◌<◌};
ghost use Rattle.flatten.specs.Call.{first_turn, start_of, answer_of, told_of, report_of, outcome, call_of, few_of, owned_of};

use crate::boxes::{Change, PathBox, merge_at};
use crate::step::step;
use crate::tag::Given;
use refusals::Refusal;

// The workgroups, each of 256 tags, and where in the scene the parts begin.
#[derive(Clone, Copy)]
pub struct Layout {
    pub n_wg: u32,
    pub tag_base: u32,
    pub data_base: u32,
    pub transform_base: u32,
    pub style_base: u32,
}

// Where the call stands: the tags left (none after a stop), the tag in turn, the lines stored, the
// stop if any, and what the last tag does to which box.
#[derive(Clone, Copy)]
pub struct Turn {
    pub left: u64,
    pub tag: u64,
    pub count: u32,
    pub stop: Option<Refusal>,
    pub at: usize,
    pub change: Change,
}

// Why the call stopped, the tag in turn, and how many lines are stored.
#[derive(Clone, Copy)]
pub struct Refused {
    pub why: Refusal,
    pub tag: u64,
    pub count: u32,
}

// An answer in the numbers that C is told; with 5, `end` is 1 where a line's start is no number and 2 where only its end is none.
#[derive(Clone, Copy)]
pub struct Told {
    pub number: u32,
    pub end: u32,
    pub tag: u64,
    pub count: u32,
}

// Of so many lines stored, or of a refusal.
impl From<Result<u32, Refused>> for Told {
    ghost from_gives = { λ a t. t ≡ told_of a };

    #[tactic(auto, unfolding(crate::specs::Call::told_of))]
    fn from(answer: Result<u32, Refused>) -> Told
        ensures { result ≡ told_of answer }
    {
        match answer {
            Ok(count) => Told {
                number: 0,
                end: 0,
                tag: 0,
                count,
            },
            Err(refused) => Told {
                number: refused.why.number(),
                end: refused.why.end(),
                tag: refused.tag,
                count: refused.count,
            },
        }
    }
}

#[tactic(auto, unfolding(crate::specs::Call::first_turn))]
fn first_turn(left: u64, stop: Option<Refusal>) -> Turn
    ensures { result ≡ first_turn left stop }
{
    Turn {
        left,
        tag: 0,
        count: 0,
        stop,
        at: 0,
        change: Change::nothing(),
    }
}

fn start(layout: Layout, scene_len: usize) -> Turn
    ensures { result ≡ start_of layout scene_len }
{
    if scene_len < layout.tag_base as usize {
        return first_turn(0, Some(Refusal::BadBase));
    }
    if scene_len < layout.data_base as usize {
        return first_turn(0, Some(Refusal::BadBase));
    }
    first_turn(layout.n_wg as u64 * 256, None)
}

#[tactic(auto, unfolding(crate::specs::Call::answer_of))]
fn answered(t: Turn) -> Result<u32, Refused>
    ensures { result ≡ answer_of t }
{
    match t.stop {
        None => Ok(t.count),
        Some(why) => Err(Refused {
            why,
            tag: t.tag,
            count: t.count,
        }),
    }
}

// For callers that take numbers: the tag and the count go to `out`, where it has room for both, and the
// end behind them where it has room for that too.
pub fn report(answer: Result<u32, Refused>, out: &mut [u64]) -> u32
    ensures { (result ≡ (told_of answer).number) × (out.new ≡ report_of (told_of answer) out.old) }
{
    let told = Told::from(answer);
    if out.len() < 2 {
        return told.number;
    }
    out[0] = told.tag;
    out[1] = told.count as u64;
    if out.len() < 3 {
        return told.number;
    }
    out[2] = told.end as u64;
    told.number
}

// As C lends them, the layout and the two lists come one by one.
pub fn flatten_main(
    layout: Layout,
    scene: &[u32],
    prefixes: &[u32],
    boxes: &mut [PathBox],
    lines: &mut [u32],
) -> Result<u32, Refused>
    ensures { outcome (told_of result) boxes.new lines.new
        ≡ call_of layout scene.now prefixes.now boxes.old lines.old }
{
    let given = Given {
        layout,
        scene,
        prefixes,
    };
    let mut t = start(layout, scene.len());
    // No range: the walk of the specs counts the tags that are left, and behind a refusal none is.
    while 0 < t.left {
        t = step(given, lines, boxes.len(), t);
        merge_at(boxes, t.at, t.change);
    }
    answered(t)
}

// What a call with boxes of its own answers.
#[derive(Clone, Copy)]
pub struct Owned {
    pub answer: Result<u32, Refused>,
    pub boxes: [PathBox; 64],
}

#[tactic(auto, unfolding(crate::specs::Call::few_of))]
fn few(n: usize) -> usize
    ensures { result ≡ few_of n }
{
    n.min(64)
}

// For callers that have no list of records to lend, and no heap for one: the first n boxes are lent, and all come back. The rest comes as C
// lends it.
pub fn flatten_owned(
    layout: Layout,
    scene: &[u32],
    prefixes: &[u32],
    mut boxes: [PathBox; 64],
    n: usize,
    lines: &mut [u32],
) -> Owned
    ensures { outcome (told_of result.answer) result.boxes lines.new
        ≡ owned_of layout scene.now prefixes.now boxes n lines.old }
{
    let n_boxes = few(n);
    let answer = flatten_main(layout, scene, prefixes, &mut boxes[..n_boxes], lines);
    Owned { answer, boxes }
}
