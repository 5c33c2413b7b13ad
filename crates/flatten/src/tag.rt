// What a tag needs from the scene, in the source's order: each read gives a value or the stop.
ghost use Rattle.std.specs.Prelude.{◌≡◌};
ghost use Rattle.flatten.specs.Tag.{is_path, is_stroke, boxed, tag_at, head_at, points_at, numbers_at, neighbor_at, stroke_at, shape_at};

use crate::call::Layout;
use refusals::Refusal;
use scene::reading::{line_width, read_path_segment, read_transform, style_flags};
use scene::tags::{PathTagData, compute_tag_monoid};
use segment::{Neighbor, Shape, neighbor_of};
use spiral::util::Vec2;

// A tag with its style's flags.
#[derive(Clone, Copy)]
pub struct Head {
    pub tag: PathTagData,
    pub flags: u32,
}

impl Head {
    // Whether it ends a path.
    pub fn is_path(self) -> bool
        ensures { result ≡ is_path self }
    {
        self.tag.tag_byte / 0x10 % 2 == 1
    }

    pub fn is_stroke(self) -> bool
        ensures { result ≡ is_stroke self }
    {
        self.flags / 0x8000_0000 % 2 == 1
    }
}

// A path tag needs its path's box.
#[tactic(auto, unfolding(crate::specs::Tag::boxed))]
fn with_box(head: Head, n_boxes: usize) -> Result<Head, Refusal>
    ensures { result ≡ boxed n_boxes head }
{
    if head.is_path() && n_boxes <= head.tag.monoid.path_ix as usize {
        return Err(Refusal::NoBox);
    }
    Ok(head)
}

// What a call is lent to read from: its scene, where the parts of it begin, and the sums before its tags.
#[derive(Clone, Copy)]
pub struct Given<'a> {
    pub layout: Layout,
    pub scene: &'a [u32],
    pub prefixes: &'a [u32],
}

impl Given<'_> {
    fn read_tag(self, ix: u64) -> Result<PathTagData, Refusal>
        ensures { let g = self.entry in result ≡ tag_at g.layout g.scene.now g.prefixes.now ix }
    {
        compute_tag_monoid(self.scene, self.layout.tag_base, self.prefixes, ix)
    }

    // The tag's word, its prefix, the flags of its style, and the box of its path.
    #[tactic(auto, unfolding(crate::specs::Tag::head_at))]
    pub fn read_head(self, n_boxes: usize, ix: u64) -> Result<Head, Refusal>
        ensures { let g = self.entry in result ≡ head_at g.layout g.scene.now g.prefixes.now n_boxes ix }
    {
        let tag = self.read_tag(ix)?;
        let flags = style_flags(self.scene, self.layout.style_base, tag.monoid.style_ix)?;
        with_box(Head { tag, flags }, n_boxes)
    }

    pub fn read_points(self, tag: PathTagData, is_stroke: bool) -> Result<[Vec2; 4], Refusal>
        ensures { let g = self.entry in result ≡ points_at g.layout g.scene.now is_stroke tag }
    {
        let offset = tag.monoid.pathseg_offset;
        read_path_segment(
            tag.tag_byte,
            is_stroke,
            offset,
            self.scene,
            self.layout.data_base,
        )
    }

    // The next segment: its word, its prefix and its points, which are read as a stroke's.
    #[tactic(auto, unfolding(crate::specs::Tag::neighbor_at))]
    fn read_neighbor(self, ix: u64) -> Result<Neighbor, Refusal>
        ensures { let g = self.entry in result ≡ neighbor_at g.layout g.scene.now g.prefixes.now ix }
    {
        let tag = self.read_tag(ix)?;
        let points = self.read_points(tag, true)?;
        Ok(neighbor_of(tag.tag_byte, points))
    }

    // A tag that ends its subpath draws only the start cap, and that only where the subpath is open.
    #[tactic(auto, unfolding(crate::specs::Tag::stroke_at, crate::specs::Tag::stroke_by))]
    fn read_stroke(self, ix: u64, tag_byte: u8, width: f32) -> Result<Shape, Refusal>
        ensures { let g = self.entry in result ≡ stroke_at g.layout g.scene.now g.prefixes.now ix tag_byte width }
    {
        if tag_byte / 0x04 % 2 == 1 {
            if tag_byte % 4 == 1 {
                return Ok(Shape::Nothing);
            }
            return Ok(Shape::StartCap(width));
        }
        let next = std::num::wrapping_add_u64(ix, 1);
        let neighbor = self.read_neighbor(next)?;
        Ok(Shape::Stroke(width, neighbor))
    }

    // The numbers of its transform, be they finite or not.
    pub fn read_transform(self, head: Head) -> Result<[f32; 6], Refusal>
        ensures { let g = self.entry in result ≡ numbers_at g.layout g.scene.now head }
    {
        let trans_ix = head.tag.monoid.trans_ix;
        read_transform(self.scene, self.layout.transform_base, trans_ix)
    }

    // A stroke needs its line width, and often its neighbour.
    #[tactic(auto, unfolding(crate::specs::Tag::shape_at))]
    pub fn read_shape(self, ix: u64, head: Head) -> Result<Shape, Refusal>
        ensures { let g = self.entry in result
            ≡ shape_at (is_stroke head) g.layout g.scene.now g.prefixes.now ix head }
    {
        if !head.is_stroke() {
            return Ok(Shape::Fill);
        }
        let word = line_width(self.scene, self.layout.style_base, head.tag.monoid.style_ix)?;
        self.read_stroke(ix, head.tag.tag_byte, maths::float_of(word))
    }
}
