//! A line of two parallel pipes with crossovers at even spaces: worked out by formula, not stored.
ghost use Rattle.std.specs.Prelude.{◌≡◌, ◌*◌, ◌^◌, ◌<◌, ◌≤◌, ◌↔◌, [], Some};
ghost use Rattle.std.specs.List.{slice_get};
ghost use Rattle.std.specs.Result.{result_err};
ghost use Rattle.faults.specs.Reasons.{FirstReason};
ghost use Rattle.faults.specs.declared.Layer.TheVariants as layer;
ghost use Rattle.amounts.specs.Forms.{section_form};
ghost use Rattle.networks.specs.declared.section.Section.{Section as Part};
ghost use Rattle.networks.specs.Nets.{InRange};
ghost use Rattle.networks.specs.Ranges.{on_ok};
ghost use Rattle.twinline.specs.Twin.{LineRange, line_drawn, drawing_reasons, twin_net, numbered as section_by, along as along_of, section_count, end_of, open_section};
ghost use Rattle.twinline.specs.Drawn.{Drawn};
ghost use Rattle.twinline.specs.Touching.{Only, Crossing, or_none};

use amounts::forms::{PageCost, SectionForm};
use amounts::sampling::{length_fits, rate_fits, samples_of};
use faults::{Fault, Side, in_range};
use networks::network::Network;
use networks::section::Section;

/// The most stations a pipe, and the widest spacing.
pub const LONGEST_PIPE: usize = 2048;

/// What a drawing says: stations a pipe, the spacing of the crossovers in stations, lengths in millimetres, and samples per metre.
#[derive(Clone, Copy, Debug, PartialEq, Eq)]
pub struct Drawing {
    pub count: usize,
    pub spacing: usize,
    pub upper: u64,
    pub lower: u64,
    pub crossover: u64,
    pub rate: u64,
}

/// Stations a pipe, the spacing of the crossovers, and the samples of each sort of section.
// Kept: no model. A value at hand shows its ranges with no call, and a `Copy` struct that holds a line is copied.
#[derive(Clone, Copy, Debug, PartialEq, Eq)]
pub struct TwinLine {
    count: usize,
    spacing: usize,
    upper: u32,
    lower: u32,
    crossover: u32,
    ghost counted: { (1 ≤ count) × (count ≤ 2048) },
    ghost spaced: { (1 ≤ spacing) × (spacing ≤ 2048) },
    ghost fit: { (upper < 2 ^ 32) × (lower < 2 ^ 32) × (crossover < 2 ^ 32) },
}

fn open_section<A>(from: usize, to: usize, amount: A) -> Section<A>
    ensures { result ≡ open_section from to amount }
{
    Section {
        from,
        to,
        amount,
        shut: false,
    }
}

fn amount<C: PageCost>(moves: u16, samples: u32) -> C::Section
    ensures { result ≡ C.forms.made (section_form moves samples) }
{
    C::made(SectionForm { moves, samples })
}

/// The k-th of two numbers, either of which may be absent.
// Kept: a match. With `chain` and `nth`, asking for a station's sections in turn takes more than twice as long.
fn kth(first: Option<usize>, second: Option<usize>, k: usize) -> Option<usize>
    ensures { result ≡ slice_get (or_none first (or_none second [])) k }
{
    match (first, k) {
        (Some(number), 0) => Some(number),
        (Some(_), 1) | (None, 0) => second,
        _ => None,
    }
}

impl TwinLine {
    ghost use Rattle.twinline.specs.Held.{line_of};

    /// The twin line of a drawing, or the first parameter that breaks its range.
    // Inlined, so that a line which is looked at on the spot is not first put together in memory.
    #[inline]
    pub fn new(drawing: Drawing) -> Result<TwinLine, Fault>
        ensures exact { on_ok line_of result ≡ line_drawn drawing }
        ensures reasons { FirstReason layer.Network (drawing_reasons drawing) (result_err result) }
    {
        let Drawing {
            count,
            spacing,
            upper,
            lower,
            crossover,
            rate,
        } = drawing;
        in_range(0, (1..=LONGEST_PIPE).contains(&count))?;
        in_range(1, (1..=LONGEST_PIPE).contains(&spacing))?;
        in_range(2, length_fits(upper))?;
        in_range(3, length_fits(lower))?;
        in_range(4, length_fits(crossover))?;
        in_range(5, rate_fits(rate))?;
        Ok(TwinLine {
            count,
            spacing,
            upper: samples_of(upper, rate)?,
            lower: samples_of(lower, rate)?,
            crossover: samples_of(crossover, rate)?,
        })
    }

    /// The section along a pipe to which a side comes at the station.
    fn along(&self, side: Side, station: usize) -> Option<usize>
        ensures { Only (end_of (line_of self.now) side) station 0 (2 * along_of (line_of self.now)) result }
    {
        let count = self.count;
        // Kept: comparisons. With `contains` of a range, asking for a station's sections in turn takes a third longer.
        match side {
            Side::Forward if station < count - 1 => Some(station),
            Side::Forward if station >= count && station < 2 * count - 1 => Some(station - 1),
            Side::Backward if station > 0 && station < count => Some(station - 1),
            Side::Backward if station > count && station < 2 * count => Some(station - 2),
            _ => None,
        }
    }

    /// The section across at this place of the line, down or up.
    fn crossing(&self, place: usize, down: bool) -> Option<usize>
        requires { place < self.now.count }
        ensures { Crossing (line_of self.now) place down result }
    {
        if place % self.spacing != 0 {
            return None;
        }
        let first = 2 * (self.count - 1) + 2 * (place / self.spacing);
        if down { Some(first) } else { Some(first + 1) }
    }

    /// The section across to which a side comes at the station.
    fn across(&self, side: Side, station: usize) -> Option<usize>
        ensures { Only (end_of (line_of self.now) side) station (2 * along_of (line_of self.now)) (section_count (line_of self.now)) result }
    {
        if station < self.count {
            self.crossing(station, side == Side::Forward)
        } else if station < 2 * self.count {
            self.crossing(station - self.count, side == Side::Backward)
        } else {
            None
        }
    }

    /// How many sections there are, along and across.
    fn section_count(&self) -> usize
        ensures value { result ≡ section_count (line_of self.now) }
        ensures range { LineRange (line_of self.now) }
    {
        let along = self.count - 1;
        2 * along + 2 * (along / self.spacing + 1)
    }

    /// The numbered section: along the upper pipe, along the lower one, or across.
    fn numbered<C: PageCost>(&self, number: usize) -> Section<C::Section>
        requires { number < section_count (line_of self.now) }
        ensures { result ≡ section_by C.forms.made (line_of self.now) number }
    {
        let count = self.count;
        let along = count - 1;
        if number < along {
            return open_section(number, number + 1, amount::<C>(0, self.upper));
        }
        if number < 2 * along {
            let from = count + (number - along);
            return open_section(from, from + 1, amount::<C>(0, self.lower));
        }
        let rest = number - 2 * along;
        let place = rest / 2 * self.spacing;
        let amount = amount::<C>(1, self.crossover);
        if rest % 2 == 0 {
            open_section(place, count + place, amount)
        } else {
            open_section(count + place, place, amount)
        }
    }
}

impl<C: PageCost> Network<C> for TwinLine {
    ghost use Rattle.twinline.specs.Held.{line_of};

    ghost meaning = { λ t. twin_net C.forms.made (line_of t) };

    /// What the line holds is always in its range.
    fn stations(&self) -> usize
        ensures count { result ≡ (twin_net C.forms.made (line_of self.now)).stations }
        ensures range { InRange C.Cost.section_range (twin_net C.forms.made (line_of self.now)) }
        ensures line { LineRange (line_of self.now) }
    {
        2 * self.count
    }

    fn sections(&self) -> usize {
        self.section_count()
    }

    fn launcher(&self) -> usize {
        0
    }

    fn trap(&self) -> usize {
        2 * self.count - 1
    }

    /// The section that is drawn under this number, if any is.
    fn section(&self, number: usize) -> Option<Section<C::Section>>
        ensures exact { result ≡ slice_get (twin_net C.forms.made (line_of self.now)).sections number }
        ensures drawn { (s : Part C.Section) → (result ≡ Some s) ↔ Drawn C.forms.made (line_of self.now) number s }
    {
        if number < self.section_count() {
            Some(self.numbered::<C>(number))
        } else {
            None
        }
    }

    /// One along and one across at most.
    fn touching(&self, side: Side, station: usize, k: usize) -> Option<usize> {
        kth(self.along(side, station), self.across(side, station), k)
    }
}
