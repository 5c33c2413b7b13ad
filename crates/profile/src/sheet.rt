// The whole test: every read that flattening makes, and then the rules, over all tags.
ghost use Rattle.std.specs.Prelude.{◌≡◌, ◌+◌, ◌<◌, ◌^◌};
ghost use Rattle.records.specs.Record.{once};
ghost use Rattle.profile.specs.Reads.{given, seen, tags, no_segment, rest_by, read_at};
ghost use Rattle.profile.specs.Rules.{head_of, has_segment, segments};
ghost use Rattle.profile.specs.Verdict.{unread_fault, fault_number, told_of, rules_of, profile_of};
ghost use Rattle.profile.specs.Trail.{Small, step_of, no_trail};
ghost use Rattle.profile.specs.Walk.{AllRead, ReadBy};

use crate::rules::Rule;
use crate::trail::{Trail, has_segment, take_step};
use flatten::call::Layout;
use flatten::tag::{Given, Head};
use refusals::Refusal;
use spiral::util::Vec2;

// What a sheet that passes has.
#[derive(Clone, Copy)]
pub struct Passed {
    pub segments: u64,
    pub subpaths: u64,
}

#[derive(Clone, Copy)]
pub enum Fault {
    // 1, 2 or 3: a read that flattening makes too.
    Unread(Refusal),
    // 70 to 75: a rule.
    Against(Rule),
}

// Why a sheet is refused, and the tag.
#[derive(Clone, Copy)]
pub struct Failed {
    pub fault: Fault,
    pub tag: u64,
}

// An answer in the numbers that C is told.
#[derive(Clone, Copy)]
pub struct Told {
    pub number: u32,
    pub tag: u64,
    pub segments: u64,
    pub subpaths: u64,
}

impl Fault {
    #[tactic(auto, unfolding(crate::specs::Verdict::fault_number))]
    pub fn number(self) -> u32
        ensures { result ≡ fault_number self }
    {
        match self {
            Fault::Unread(why) => why.number(),
            Fault::Against(rule) => rule.number(),
        }
    }
}

impl From<Result<Passed, Failed>> for Told {
    ghost from_gives = { λ a t. t ≡ told_of a };

    #[tactic(auto, unfolding(crate::specs::Verdict::told_of))]
    fn from(verdict: Result<Passed, Failed>) -> Told
        ensures { result ≡ told_of verdict }
    {
        match verdict {
            Ok(passed) => Told {
                number: 0,
                tag: 0,
                segments: passed.segments,
                subpaths: passed.subpaths,
            },
            Err(failed) => Told {
                number: failed.fault.number(),
                tag: failed.tag,
                segments: 0,
                subpaths: 0,
            },
        }
    }
}

#[tactic(auto, unfolding(crate::specs::Verdict::unread))]
fn unread(why: Refusal, tag: u64) -> Failed
    ensures { result ≡ unread_fault why tag }
{
    Failed {
        fault: Fault::Unread(why),
        tag,
    }
}

// Behind its head: what a segment has read. flatten's `read_drawing` makes the same three reads, with a test of its own behind the
// first: one function for both was tried, and took a law, a definition and two answers for one line.
#[tactic(auto, unfolding(crate::specs::Reads::rest_by))]
fn read_rest(given: Given, ix: u64, head: Head) -> Result<Head, Refusal>
    ensures { result ≡ rest_by (no_segment head) (seen given.entry) ix head }
{
    if head.tag.tag_byte % 4 == 0 {
        return Ok(head);
    }
    given.read_transform(head)?;
    given.read_points(head.tag, head.is_stroke())?;
    given.read_shape(ix, head)?;
    Ok(head)
}

// Whatever the call reads for a tag, with a box for each path.
#[tactic(auto, unfolding(crate::specs::Reads::read_at))]
fn read_tag(given: Given, ix: u64) -> Result<Head, Refusal>
    ensures { result ≡ read_at (seen given.entry) ix }
{
    let head = given.read_head(0x1_0000_0000, ix)?;
    read_rest(given, ix, head)
}

fn counted(n: u64, head: Head) -> u64
    requires { n < 2 ^ 40 }
    ensures { result ≡ n + once (has_segment head) }
{
    if has_segment(head) {
        return n + 1;
    }
    n
}

// The first pass counts the segments: refusals 1 to 3 come before all rules.
fn read_all(given: Given) -> Result<u64, Failed>
    ensures { ReadBy (seen given.entry) result }
{
    let n = given.layout.n_wg as u64 * 256;
    let mut total: u64 = 0;
    for i in 0..n {
        match read_tag(given, i) {
            Ok(head) => total = counted(total, head),
            Err(why) => return Err(unread(why, i)),
        }
    }
    Ok(total)
}

fn no_trail() -> Trail
    ensures { result ≡ no_trail }
{
    let start = Vec2::new(0.0, 0.0);
    Trail {
        segments: 0,
        subpaths: 0,
        unfinished: false,
        start,
        words: [0, 0, 0, 0, 0, 0],
    }
}

fn step_at(given: Given, ix: u64, trail: Trail, total: u64) -> Result<Trail, Rule>
    requires small { Small trail }
    requires was_read { read_at (seen given) ix ≡ Ok (head_of (seen given) ix) }
    ensures { let g = seen given.entry in result ≡ step_of g.layout g.scene (head_of g ix) trail total }
{
    let head = given.read_head(0x1_0000_0000, ix).unwrap();
    take_step(given, head, trail, total)
}

// The second pass: the rules, tag by tag. It knows how many segments are to come.
fn rules(given: Given, total: u64) -> Result<Passed, Failed>
    requires all_read { AllRead (seen given) (tags (seen given)) }
    requires total_value { total ≡ segments (seen given) (tags (seen given)) }
    ensures { result ≡ rules_of (seen given.entry) }
{
    let n = given.layout.n_wg as u64 * 256;
    let mut trail = no_trail();
    for i in 0..n {
        match step_at(given, i, trail, total) {
            Ok(behind) => trail = behind,
            Err(rule) => {
                return Err(Failed {
                    fault: Fault::Against(rule),
                    tag: i,
                });
            }
        }
    }
    Ok(Passed {
        segments: trail.segments,
        subpaths: trail.subpaths,
    })
}

// Nothing is written. As C lends them, the layout and the two lists come one by one.
pub fn test_scene(layout: Layout, scene: &[u32], prefixes: &[u32]) -> Result<Passed, Failed>
    ensures { result ≡ profile_of (given layout scene.now prefixes.now) }
{
    if scene.len() < layout.tag_base as usize {
        return Err(unread(Refusal::BadBase, 0));
    }
    if scene.len() < layout.data_base as usize {
        return Err(unread(Refusal::BadBase, 0));
    }
    let given = Given {
        layout,
        scene,
        prefixes,
    };
    let total = read_all(given)?;
    rules(given, total)
}
