// The boxes of the paths, a lent list of records. `merge_at` alone touches the list; what happens to
// one box is a function of its value.
ghost use Rattle.std.specs.Prelude.{◌≡◌};
ghost use Rattle.flatten.specs.Boxes.{fresh_box, no_change, has_extent, marked_of, merged_of, changed_of, changed_at};

use drawing::line::IntBbox;

// Laid out as C has it: lists of these are lent from outside.
#[repr(C)]
#[derive(Clone, Copy)]
pub struct PathBox {
    pub x0: i32,
    pub y0: i32,
    pub x1: i32,
    pub y1: i32,
    pub draw_flags: u32,
    pub trans_ix: u32,
}

// What a path tag stores in its path's box.
#[derive(Clone, Copy)]
pub struct Mark {
    pub draw_flags: u32,
    pub trans_ix: u32,
}

// What one tag does to its path's box: store a mark, and merge the box of what it drew.
#[derive(Clone, Copy)]
pub struct Change {
    pub mark: Option<Mark>,
    pub bbox: IntBbox,
}

impl Change {
    // Which leaves a box as it is.
    pub(crate) fn nothing() -> Change
        ensures { result ≡ no_change }
    {
        Change {
            mark: None,
            bbox: IntBbox::empty(),
        }
    }
}

fn has_extent(bbox: IntBbox) -> bool
    ensures { result ≡ has_extent bbox }
{
    if bbox.x0 < bbox.x1 {
        return true;
    }
    bbox.y0 < bbox.y1
}

impl PathBox {
    // Like the box of a tag that drew nothing, with 0 0 behind.
    pub fn fresh() -> PathBox
        ensures { result ≡ fresh_box }
    {
        PathBox {
            x0: 2147483647,
            y0: 2147483647,
            x1: -2147483648,
            y1: -2147483648,
            draw_flags: 0,
            trans_ix: 0,
        }
    }

    #[tactic(auto, unfolding(crate::specs::Boxes::marked_of))]
    fn marked(self, mark: Option<Mark>) -> PathBox
        ensures { result ≡ marked_of mark self }
    {
        match mark {
            Some(m) => PathBox {
                draw_flags: m.draw_flags,
                trans_ix: m.trans_ix,
                ..self
            },
            None => self,
        }
    }

    #[tactic(auto, unfolding(crate::specs::Boxes::merged_of))]
    fn merged(self, bbox: IntBbox) -> PathBox
        ensures { result ≡ merged_of (has_extent bbox) self bbox }
    {
        if has_extent(bbox) {
            let x0 = self.x0.min(bbox.x0);
            let y0 = self.y0.min(bbox.y0);
            let x1 = self.x1.max(bbox.x1);
            let y1 = self.y1.max(bbox.y1);
            return PathBox {
                x0,
                y0,
                x1,
                y1,
                draw_flags: self.draw_flags,
                trans_ix: self.trans_ix,
            };
        }
        self
    }

    pub fn changed(self, change: Change) -> PathBox
        ensures { result ≡ changed_of self change }
    {
        self.marked(change.mark).merged(change.bbox)
    }
}

// The one function over the lent list. Past its end nothing is changed.
pub fn merge_at(boxes: &mut [PathBox], at: usize, change: Change)
    ensures { boxes.new ≡ changed_at boxes.old at change }
{
    if at < boxes.len() {
        boxes[at] = boxes[at].changed(change);
    }
}
