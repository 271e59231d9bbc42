// The plan text: five sections, each written in what the sections before it left of the output.
ghost use Rattle.std.specs.Prelude.{◌≡◌, ◌++◌, ◌*◌, ◌≤◌, length};
ghost use Rattle.transport.specs.Limits.{max_side};
ghost use Rattle.decimals.specs.Front.{front};
ghost use Rattle.plan_lines.specs.Sections.{figures_text, prices_text, lanes_text, plan_sections_of};

use crate::lanes;
use sections::section;

// What the plan text shows in one number each: the cost, the rounds, and the count of the lanes
// that carry a bag.
#[derive(Clone, Copy)]
pub struct Figures {
    pub total: i64,
    pub rounds: u64,
    pub used: usize,
}

// All that the plan text shows: its figures, the prices of the roasteries and of the cafés, and the
// plan. Each café has a price, and a column in the plan.
#[derive(Clone, Copy)]
pub struct PlanSections<'a> {
    pub figures: Figures,
    pub u: &'a [i64],
    pub v: &'a [i64],
    pub plan: &'a [u64],
}

impl PlanSections<'_> {
    // The cost and the rounds.
    #[tactic(auto, using(decimals::specs::Front::pieces), unfolding(transport::specs::Text::bytes))]
    fn write_figures(self, out: &mut [u8]) -> usize
        requires { length (figures_text self.figures) ≤ length out.old }
        ensures { let shown = self.entry in
            let text = figures_text shown.figures in
            (result ≡ length text) × (out.new ≡ front text out.old) }
    {
        let at = section::write_section(b"total ", 1, 1, &[self.figures.total], out);
        at + section::write_section(b"rounds ", 1, 1, &[self.figures.rounds], &mut out[at..])
    }

    // The prices: those of the roasteries, and those of the cafés.
    #[tactic(auto, using(decimals::specs::Front::pieces), unfolding(transport::specs::Text::bytes))]
    fn write_prices(self, out: &mut [u8]) -> usize
        requires { length (prices_text self.u.now self.v.now) ≤ length out.old }
        ensures { let shown = self.entry in
            let text = prices_text shown.u.now shown.v.now in
            (result ≡ length text) × (out.new ≡ front text out.old) }
    {
        let at = section::write_section(b"roasteries ", self.u.len(), 1, self.u, out);
        at + section::write_section(b"cafes ", self.v.len(), 1, self.v, &mut out[at..])
    }

    // The lanes: the count of those that carry a bag, and their lines.
    #[tactic(auto, using(decimals::specs::Front::pieces), unfolding(transport::specs::Text::bytes))]
    fn write_lanes(self, out: &mut [u8]) -> usize
        requires { (length self.plan.now ≤ max_side * max_side) × (1 ≤ length self.v.now)
            × (length (lanes_text self.figures.used (length self.v.now) self.plan.now) ≤ length out.old) }
        ensures { let shown = self.entry in
            let text = lanes_text shown.figures.used (length shown.v.now) shown.plan.now in
            (result ≡ length text) × (out.new ≡ front text out.old) }
    {
        let at = section::write_head(b"lanes ", self.figures.used, out);
        at + lanes::write_lanes(self.plan, self.v.len(), &mut out[at..])
    }

    // The sections after the figures: the prices, and the lanes.
    #[tactic(auto, using(decimals::specs::Front::pieces))]
    fn write_after_figures(self, out: &mut [u8]) -> usize
        requires { (length self.plan.now ≤ max_side * max_side) × (1 ≤ length self.v.now)
            × (length (prices_text self.u.now self.v.now
            ++ lanes_text self.figures.used (length self.v.now) self.plan.now) ≤ length out.old) }
        ensures { let shown = self.entry in
            let text = prices_text shown.u.now shown.v.now
            ++ lanes_text shown.figures.used (length shown.v.now) shown.plan.now in
            (result ≡ length text) × (out.new ≡ front text out.old) }
    {
        let at = self.write_prices(out);
        at + self.write_lanes(&mut out[at..])
    }

    // The whole text.
    #[tactic(auto, using(decimals::specs::Front::pieces), unfolding(crate::specs::Sections::plan_sections_of))]
    pub fn write_text(self, out: &mut [u8]) -> usize
        requires { (length self.plan.now ≤ max_side * max_side) × (1 ≤ length self.v.now)
            × (length (plan_sections_of self.figures self.u.now self.v.now self.plan.now) ≤ length out.old) }
        ensures { let shown = self.entry in
            let text = plan_sections_of shown.figures shown.u.now shown.v.now shown.plan.now in
            (result ≡ length text) × (out.new ≡ front text out.old) }
    {
        let at = self.write_figures(out);
        at + self.write_after_figures(&mut out[at..])
    }

    // Its length.
    #[tactic(auto, using(crate::specs::Lanes::next_texts))]
    pub fn text_len(self) -> usize
        requires { (length self.u.now ≤ max_side) × (length self.v.now ≤ max_side)
            × (length self.plan.now ≤ max_side * max_side) × (1 ≤ length self.v.now) }
        ensures { let shown = self.entry in
            result ≡ length (plan_sections_of shown.figures shown.u.now shown.v.now shown.plan.now) }
    {
        section::section_len(b"total ", 1, &[self.figures.total])
            + section::section_len(b"rounds ", 1, &[self.figures.rounds])
            + section::section_len(b"roasteries ", self.u.len(), self.u)
            + section::section_len(b"cafes ", self.v.len(), self.v)
            + section::head_len(b"lanes ", self.figures.used)
            + lanes::lanes_len(self.plan, self.v.len())
    }
}
