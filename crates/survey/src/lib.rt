// What good order and opening both ask of a sketch's record and of its register bytes, in memory or in an image: the book's tests, by one survey of
// the cells for each kind.
#![tactic(auto)]

ghost use Rattle.std.specs.Prelude.{◌≡◌, true, ◌*◌, ◌^◌, ◌≤◌, eqb, ltb, length};
ghost use Rattle.model.specs.Pick.{pick, both};
ghost use Rattle.model.specs.Registers.{count_of};
ghost use Rattle.model.specs.Packed.{unpacked};
ghost use Rattle.model.specs.Check.{counts_fit};
ghost use Rattle.survey.specs.Survey.{Surveyable, Surveyed};

use model::Sketch;

#[derive(Clone, Copy)]
pub struct Seen {
    pub values: bool,
    pub spare: bool,
    pub tally: bool,
    pub tokens: u32,
}

// The record alone. It is judged first: what is said of cells relies on cur_min.
#[tactic(auto, using(crate::proofs::Cells::power), unfolding(model::specs::Check::counts_fit))]
pub fn counts_fit(s: Sketch) -> bool
    requires { s.lg_k ≤ 21 }
    ensures { result ≡ counts_fit s }
{
    let k = 1u32 << s.lg_k;
    let kind_fits = if s.kind == 4 {
        s.cur_min <= 63
    } else {
        s.cur_min == 0 && s.aux_count == 0
    };
    s.num_at_cur_min <= k && s.aux_count <= k && kind_fits
}

// The number of cells that are 0 is the record's, and for kind 4 there is one.
fn tally_fits(s: Sketch, zeros: u32) -> bool
    ensures { result ≡ both (eqb s.num_at_cur_min zeros) (pick (eqb s.kind 4) (ltb 0 s.num_at_cur_min) true) }
{
    s.num_at_cur_min == zeros && (s.kind != 4 || 0 < s.num_at_cur_min)
}

// Six bits are never past 63, so the values need no look; the spare byte does.
fn six(s: Sketch, regs: &[u8]) -> Seen
    requires { Surveyable s regs.now × (s.kind ≡ 6) }
    ensures { Surveyed s regs.now result }
{
    let zeros = survey_six::count_zeros(regs);
    Seen {
        values: true,
        spare: regs[regs.len() - 1] == 0,
        tally: tally_fits(s, zeros),
        tokens: 0,
    }
}

// Kind 4's nibbles of 15. No Option: `Surveyed` promises nothing of the field for other kinds, and both callers read it for kind 4 alone, so a None would be a case that never comes.
fn tokens(kind: u8, regs: &[u8]) -> u32
    requires { length regs.now ≤ 2 ^ 21 }
    ensures { kind ≡ 4 → result ≡ count_of 15 (unpacked 4 (2 * length regs.now) regs.now) }
{
    if kind == 4 {
        survey_whole::count(4, regs, 15)
    } else {
        0
    }
}

// A pass for each question and not one for all: each is then so simple that it goes sixteen bytes at a time.
pub fn survey(s: Sketch, regs: &[u8]) -> Seen
    requires { Surveyable s regs.now }
    ensures { Surveyed s regs.now result }
{
    if s.kind == 6 {
        return six(s, regs);
    }
    let largest = survey_whole::largest(s.kind, regs);
    let zeros = survey_whole::count(s.kind, regs, 0);
    Seen {
        values: largest <= 63 - s.cur_min,
        spare: true,
        tally: tally_fits(s, zeros),
        tokens: tokens(s.kind, regs),
    }
}
