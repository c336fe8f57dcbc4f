//! Random claims, written and read again.

use claim_text::{ClaimsError, read_claims, write_claim};
use claims::{
    Case, Claim, Comparison, Copies, CopyFate, Count, Deed, Limits, LineKind, Lines, Order,
    Packets, Pattern, Ratio, Relation, Set, Span, Test, Watched, Way,
};
use program_tree::{Names, Proc, Target};
use std::alloc::{AllocError, Global};
use std::test::Fail;
use test_helpers::same_text;

/// A source of random numbers.
struct Dice {
    state: u64,
}

impl Drop for Dice {
    fn drop(self) {
        let Dice { state: _ } = self;
    }
}

impl Dice {
    /// A number below `sides`.
    fn roll(&mut self, sides: u64) -> u64 {
        self.state = self
            .state
            .wrapping_mul(6364136223846793005)
            .wrapping_add(1442695040888963407);
        if sides == 0 {
            0
        } else {
            (self.state >> 33) % sides
        }
    }

    fn is_so(&mut self) -> bool {
        self.roll(2) == 0
    }

    /// A number, which is seldom large.
    fn number(&mut self) -> u64 {
        match self.roll(12) {
            0 => u64::MAX,
            1 => self.roll(1000).saturating_add(1000),
            _ => self.roll(4),
        }
    }

    fn small(&mut self) -> u16 {
        u16::try_from(self.roll(5)).unwrap_or(0)
    }

    fn process(&mut self) -> u8 {
        u8::try_from(self.roll(4)).unwrap_or(0)
    }

    fn factor(&mut self) -> u32 {
        u32::try_from(self.roll(101)).unwrap_or(0)
    }

    fn span(&mut self) -> Span {
        let from = self.number();
        if self.is_so() {
            Span { from, to: from }
        } else {
            Span {
                from,
                to: self.number(),
            }
        }
    }

    fn when(&mut self) -> Span {
        match self.roll(4) {
            0 => self.span(),
            1 => Span { from: 7, to: 9 },
            _ => Span {
                from: 0,
                to: u64::MAX,
            },
        }
    }

    fn limits(&mut self) -> Limits {
        let least = self.roll(4);
        match self.roll(3) {
            0 => Limits { least, most: None },
            1 => Limits {
                least: 0,
                most: Some(0),
            },
            _ => Limits {
                least,
                most: Some(self.roll(4)),
            },
        }
    }

    fn kind(&mut self) -> LineKind {
        match self.roll(19) {
            0 => LineKind::Start,
            1 => LineKind::Leave,
            2 => LineKind::Post,
            3 => LineKind::Full,
            4 => LineKind::Take,
            5 => LineKind::Drop,
            6 => LineKind::Busy,
            7 => LineKind::Halt,
            8 => LineKind::Lost,
            9 => LineKind::Deaf,
            10 => LineKind::Collide,
            11 => LineKind::Boots,
            12 | 13 => LineKind::Send,
            14 | 15 => LineKind::Recv,
            _ => LineKind::Print,
        }
    }

    fn kinds(&mut self, alloc: Global) -> Result<Vec<LineKind>, AllocError> {
        let mut kinds = Vec::new(alloc);
        for _ in 0..self.roll(4) {
            kinds.push(self.kind())?;
        }
        Ok(kinds)
    }

    fn target(&mut self) -> Option<Target> {
        match self.roll(9) {
            0 => Some(Target::All),
            1 => Some(Target::One(Proc::Etimer)),
            2 => Some(Target::One(Proc::Ctimer)),
            3 => Some(Target::One(Proc::Radio)),
            4 => Some(Target::One(Proc::Own(self.process()))),
            _ => None,
        }
    }

    fn relation(&mut self) -> Relation {
        match self.roll(4) {
            0 => Relation::After,
            1 => Relation::NotBefore,
            2 => Relation::Within(self.number()),
            _ => Relation::Followed(self.number()),
        }
    }

    fn set(&mut self, alloc: Global) -> Result<Set, AllocError> {
        let mut set = Set {
            spans: Vec::new(alloc),
        };
        for _ in 0..self.roll(3) {
            set.spans.push(self.span())?;
        }
        Ok(set)
    }

    fn if_set(&mut self, alloc: Global) -> Result<Option<Set>, AllocError> {
        if self.roll(3) == 0 {
            Ok(Some(self.set(alloc)?))
        } else {
            Ok(None)
        }
    }

    fn pattern(&mut self, alloc: Global) -> Result<Pattern, AllocError> {
        let mut pattern = Pattern {
            kinds: self.kinds(alloc)?,
            target: self.target(),
            serial: None,
            event: None,
            sender: None,
            packet: None,
            value: None,
        };
        self.fill_pattern(alloc, &mut pattern)?;
        Ok(pattern)
    }

    fn fill_pattern(&mut self, alloc: Global, pattern: &mut Pattern) -> Result<(), AllocError> {
        if self.is_so() {
            pattern.value = self.if_set(alloc)?;
            return Ok(());
        }
        pattern.serial = self.if_set(alloc)?;
        pattern.event = self.if_set(alloc)?;
        pattern.sender = self.if_set(alloc)?;
        pattern.packet = self.if_set(alloc)?;
        pattern.value = self.if_set(alloc)?;
        Ok(())
    }

    fn fill_deed(&mut self, alloc: Global, own: u16, deed: &mut Deed) -> Result<(), AllocError> {
        for _ in 0..self.roll(3) {
            let pattern = self.pattern(alloc)?;
            deed.patterns.push(pattern)?;
        }
        if self.roll(3) > 0 {
            deed.watches.push(Watched {
                mote: own,
                when: self.when(),
            })?;
            return Ok(());
        }
        let when = self.when();
        for _ in 0..self.roll(6) {
            deed.watches.push(Watched {
                mote: self.small(),
                when: if self.roll(3) > 0 { when } else { self.when() },
            })?;
        }
        Ok(())
    }

    fn deed(&mut self, alloc: Global, own: u16) -> Result<Deed, AllocError> {
        let mut deed = Deed {
            watches: Vec::new(alloc),
            patterns: Vec::new(alloc),
        };
        self.fill_deed(alloc, own, &mut deed)?;
        Ok(deed)
    }

    fn order(&mut self, alloc: Global, own: u16) -> Result<Option<Order>, AllocError> {
        if self.is_so() {
            return Ok(None);
        }
        let event = self.deed(alloc, own)?;
        Ok(Some(Order {
            relation: self.relation(),
            event,
            is_so: self.is_so(),
        }))
    }

    fn lines(&mut self, alloc: Global, own: u16) -> Result<Count, AllocError> {
        let deed = self.deed(alloc, own)?;
        let order = self.order(alloc, own)?;
        Ok(Count::Lines(Lines { deed, order }))
    }

    fn packets(&mut self, alloc: Global) -> Result<Count, AllocError> {
        let sender = self.if_set(alloc)?;
        Ok(Count::Packets(Packets {
            sender,
            when: self.when(),
        }))
    }

    fn copies(&mut self, alloc: Global) -> Result<Count, AllocError> {
        let to = self.if_set(alloc)?;
        let fate = if self.is_so() {
            CopyFate::Lost(self.when())
        } else {
            CopyFate::Due(self.number())
        };
        Ok(Count::Copies(Copies { to, fate }))
    }

    fn count(&mut self, alloc: Global, own: u16) -> Result<Count, AllocError> {
        match self.roll(9) {
            0 => self.packets(alloc),
            1 => self.copies(alloc),
            2 => Ok(Count::Left),
            3 => Ok(Count::Rows),
            _ => self.lines(alloc, own),
        }
    }

    fn ratio(&mut self, alloc: Global, own: u16) -> Result<Test, AllocError> {
        let low = self.count(alloc, own)?;
        let high = self.count(alloc, own)?;
        Ok(Test::Ratio(Ratio {
            low,
            low_times: self.factor(),
            high,
            high_times: self.factor(),
            is_strict: self.is_so(),
        }))
    }

    fn in_order(&mut self, alloc: Global, own: u16) -> Result<Test, AllocError> {
        let deed = self.deed(alloc, own)?;
        let mut sets = Vec::new(alloc);
        for _ in 0..self.roll(4) {
            let set = self.set(alloc)?;
            sets.push(set)?;
        }
        Ok(Test::Values(deed, sets))
    }

    fn any_order(&mut self, alloc: Global, own: u16) -> Result<Test, AllocError> {
        let deed = self.deed(alloc, own)?;
        let mut values = Vec::new(alloc);
        for _ in 0..self.roll(4) {
            values.push(self.number())?;
        }
        Ok(Test::AnyOrder(deed, values))
    }

    fn last(&mut self, alloc: Global, own: u16) -> Result<Test, AllocError> {
        let deed = self.deed(alloc, own)?;
        let set = self.set(alloc)?;
        Ok(Test::Last(deed, set))
    }

    fn way(&mut self) -> Way {
        match self.roll(4) {
            0 => Way::Last,
            1 => Way::InTime,
            2 => Way::AnyOrder,
            _ => Way::Each(self.limits()),
        }
    }

    fn compared(&mut self, alloc: Global, own: u16) -> Result<Test, AllocError> {
        let deed = self.deed(alloc, own)?;
        let other = self.deed(alloc, own)?;
        Ok(Test::Compared(Comparison {
            deed,
            way: self.way(),
            other,
        }))
    }

    fn counted(&mut self, alloc: Global, own: u16) -> Result<Test, AllocError> {
        let count = self.count(alloc, own)?;
        Ok(Test::Count(count, self.limits()))
    }

    fn test(&mut self, alloc: Global, own: u16) -> Result<Test, AllocError> {
        match self.roll(9) {
            0 => self.ratio(alloc, own),
            1 => self.in_order(alloc, own),
            2 => self.any_order(alloc, own),
            3 => self.last(alloc, own),
            4 => self.compared(alloc, own),
            _ => self.counted(alloc, own),
        }
    }

    /// Adds a case. The same state of the dice gives the same tests for another mote.
    fn add_case(
        &mut self,
        alloc: Global,
        own: u16,
        cases: &mut Vec<Case>,
    ) -> Result<(), AllocError> {
        let mut case = Case {
            tests: Vec::new(alloc),
        };
        for _ in 0..self.roll(4) {
            let test = self.test(alloc, own)?;
            case.tests.push(test)?;
        }
        cases.push(case)?;
        Ok(())
    }

    fn add_group(&mut self, alloc: Global, cases: &mut Vec<Case>) -> Result<(), AllocError> {
        let start = self.state;
        let mut mote = self.small();
        for _ in 0..self.roll(5) {
            let next = self.state;
            self.state = start;
            self.add_case(alloc, mote, cases)?;
            self.state = next;
            mote = if self.roll(3) > 0 {
                mote.saturating_add(1)
            } else {
                self.small()
            };
        }
        Ok(())
    }

    fn claim(&mut self, alloc: Global) -> Result<Claim, AllocError> {
        let mut cases = Vec::new(alloc);
        for _ in 0..self.roll(3).saturating_add(1) {
            self.add_group(alloc, &mut cases)?;
        }
        let limits = if self.is_so() {
            self.limits()
        } else {
            Limits {
                least: cases.len() as u64,
                most: Some(cases.len() as u64),
            }
        };
        Ok(Claim { limits, cases })
    }
}

/// The number of claims in the text of a claim, or where it is refused.
fn read_again(alloc: Global, names: &Names, claim: &Claim) -> Result<usize, ClaimsError> {
    let text = write_claim(alloc, names, claim)?;
    let claims = read_claims(alloc, names, text.as_bytes())?;
    Ok(claims.len())
}

fn count_refused(alloc: Global, names: &Names, dice: &mut Dice) -> Result<u32, AllocError> {
    let mut refused: u32 = 0;
    for _ in 0..300 {
        let claim = dice.claim(alloc)?;
        let count = read_again(alloc, names, &claim);
        if count != Ok(1) {
            refused = refused.saturating_add(1);
        }
    }
    Ok(refused)
}

#[test]
fn reads_what_is_written(rt: HostRuntime) -> Result<(), Fail> {
    let names = Names::new(rt.alloc());
    let mut dice = Dice { state: 1 };
    let refused = count_refused(rt.alloc(), &names, &mut dice)?;
    let mut text = String::new(rt.alloc());
    let _ = write!(text, "{refused}");
    same_text(text.as_str(), "0")
}
