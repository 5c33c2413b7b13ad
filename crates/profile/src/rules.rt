// The rules of the profile, by what holds of one tag.
ghost use Rattle.std.specs.Prelude.{◌≡◌};
ghost use Rattle.profile.specs.Rules.{broken70, broken71, broken72, broken73, broken74, broken75, rule_of};
ghost use Rattle.profile.specs.Verdict.{number_of};

#[derive(Clone, Copy)]
pub enum Rule {
    // A stroke style on a segment or a path tag.
    Stroke,
    // The even-odd bit on one.
    EvenOdd,
    // A segment whose points are not f32.
    NotWide,
    // A segment with another transform than the sheet's, or with shear.
    Transform,
    // A subpath that is not finished by a segment's end bit on its first point.
    Subpath,
    // The 4,097th segment.
    TooMany,
}

impl Rule {
    // No other place assigns these numbers.
    #[tactic(auto, unfolding(crate::specs::Verdict::number_of))]
    pub fn number(self) -> u32
        ensures { result ≡ number_of self }
    {
        match self {
            Rule::Stroke => 70,
            Rule::EvenOdd => 71,
            Rule::NotWide => 72,
            Rule::Transform => 73,
            Rule::Subpath => 74,
            Rule::TooMany => 75,
        }
    }
}

// What holds of a tag; from `wide` on, of its segment.
#[derive(Clone, Copy)]
pub struct Facts {
    pub segment: bool,
    pub path: bool,
    pub end: bool,
    pub stroke: bool,
    pub even_odd: bool,
    pub wide: bool,
    // Its transform is that of the first segment, and has no shear.
    pub aligned: bool,
    // It ends where its subpath began.
    pub shut: bool,
    // No segment stands behind it.
    pub last: bool,
    // 4,096 segments or more stand before it.
    pub many: bool,
}

impl Facts {
    #[tactic(auto, unfolding(crate::specs::Rules::broken70))]
    fn breaks_stroke(self) -> bool
        ensures { result ≡ broken70 self }
    {
        (self.segment || self.path) && self.stroke
    }

    #[tactic(auto, unfolding(crate::specs::Rules::broken71))]
    fn breaks_even_odd(self) -> bool
        ensures { result ≡ broken71 self }
    {
        (self.segment || self.path) && self.even_odd
    }

    #[tactic(auto, unfolding(crate::specs::Rules::broken72))]
    fn breaks_wide(self) -> bool
        ensures { result ≡ broken72 self }
    {
        self.segment && !self.wide
    }

    #[tactic(auto, unfolding(crate::specs::Rules::broken73))]
    fn breaks_transform(self) -> bool
        ensures { result ≡ broken73 self }
    {
        self.segment && !self.aligned
    }

    #[tactic(auto, unfolding(crate::specs::Rules::broken74))]
    fn breaks_subpath(self) -> bool
        ensures { result ≡ broken74 self }
    {
        match (self.segment, self.end) {
            (true, true) => !self.shut,
            (true, false) => self.last,
            (false, end) => end,
        }
    }

    #[tactic(auto, unfolding(crate::specs::Rules::broken75))]
    fn breaks_count(self) -> bool
        ensures { result ≡ broken75 self }
    {
        self.segment && self.many
    }

    // The first rule that the tag breaks.
    #[tactic(auto, unfolding(crate::specs::Rules::rule_of, crate::specs::Rules::unless))]
    pub(crate) fn rule(self) -> Option<Rule>
        ensures { result ≡ rule_of self }
    {
        if self.breaks_stroke() {
            return Some(Rule::Stroke);
        }
        if self.breaks_even_odd() {
            return Some(Rule::EvenOdd);
        }
        if self.breaks_wide() {
            return Some(Rule::NotWide);
        }
        if self.breaks_transform() {
            return Some(Rule::Transform);
        }
        if self.breaks_subpath() {
            return Some(Rule::Subpath);
        }
        if self.breaks_count() {
            return Some(Rule::TooMany);
        }
        None
    }
}
