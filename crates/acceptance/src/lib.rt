// Refusals 1 to 7: whether two tables are accepted as a rota, and whether its plans can be counted and a fleet priced. Each test
// stands alone; the methods of CallTables make those of a call in their order.
#![tactic(auto)]

ghost use Rattle.std.specs.Prelude.{◌≡◌, cond, ◌≤◌, eqb, length};
ghost use Rattle.model.specs.Rota.{cell_code, table_code};
ghost use Rattle.model.specs.Refusal.{code_of, size_code, tally_code, fleet_code};
ghost use Rattle.model.specs.CountAnswers.{sized_code, count_code};
ghost use Rattle.model.specs.PriceAnswers.{untallied_price_code, price_code};

use model::Refusal;

// The first refusal: 3 for open bits beyond the slots, then 4 for callout bits on closed cells.
#[tactic(auto, unfolding(model::specs::Refusal::code_of))]
fn first_refusal(beyond: u64, closed: u64) -> Result<(), Refusal>
    ensures { code_of result ≡ cond (eqb beyond 0) (cond (eqb closed 0) 0 4) 3 }
{
    if beyond != 0 {
        return Err(Refusal::SlotOutside);
    }
    if closed != 0 {
        return Err(Refusal::CalloutNotOpen);
    }
    Ok(())
}

// 3 or 4 of the words of m slots: what is wrong in any word is gathered first, so 3 over all items comes before 4.
pub fn cells(m: usize, opens: &[u64], callouts: &[u64]) -> Result<(), Refusal>
    requires m_bound { m ≤ 64 }
    requires callouts_len { length callouts.now ≡ length opens.now }
    ensures { code_of result ≡ cell_code m opens.now callouts.now }
{
    let slots = words::low(m);
    let mut beyond: u64 = 0;
    let mut closed: u64 = 0;
    for (w, c) in opens.iter().zip(callouts) {
        beyond |= words::minus(*w, slots);
        closed |= words::minus(*c, *w);
    }
    first_refusal(beyond, closed)
}

// 5, for m slots.
#[tactic(auto, unfolding(model::specs::Refusal::code_of))]
pub fn size(m: usize) -> Result<(), Refusal>
    ensures { code_of result ≡ size_code m }
{
    if 20 < m {
        return Err(Refusal::TooManyToCount);
    }
    Ok(())
}

// 6, for m slots and a tally of so many words.
#[tactic(auto, unfolding(model::specs::Refusal::code_of))]
pub fn tally(m: usize, places: usize) -> Result<(), Refusal>
    requires { m ≤ 20 }
    ensures { code_of result ≡ tally_code m places }
{
    if (places as u64) < words::single(m) {
        return Err(Refusal::TallyTooShort);
    }
    Ok(())
}

// 7.
#[tactic(auto, unfolding(model::specs::Refusal::code_of))]
pub fn fleet(vehicles: u64) -> Result<(), Refusal>
    ensures { code_of result ≡ fleet_code vehicles }
{
    if vehicles == 0 || 10000 < vehicles {
        return Err(Refusal::BadFleet);
    }
    Ok(())
}

// The tables of n items and m slots that a call got, not tested yet. More than 64 items are refused before m is used. Each call writes the
// record out: it says itself what it takes for m, and a proof sees the four values, which a constructor would hide behind its clauses.
#[derive(Clone, Copy)]
pub struct CallTables<'a> {
    pub n: usize,
    pub m: usize,
    pub opens: &'a [u64],
    pub callouts: &'a [u64],
    ghost slots: { n ≤ 64 → m ≤ 64 },
}

impl CallTables<'_> {
    // 1 to 4.
    #[tactic(auto, unfolding(model::specs::Rota::table_code, model::specs::Refusal::code_of))]
    pub fn accepted(&self) -> Result<(), Refusal>
        ensures { let t = self.now in code_of result ≡ table_code t.n t.m t.opens.now t.callouts.now }
    {
        if self.n == 0 || 64 < self.n {
            return Err(Refusal::BadN);
        }
        if self.opens.len() != self.n || self.callouts.len() != self.n {
            return Err(Refusal::BadTableLength);
        }
        cells(self.m, self.opens, self.callouts)
    }

    // 1 to 5.
    #[tactic(auto, unfolding(model::specs::CountAnswers::sized_code, model::specs::Refusal::code_of))]
    pub fn sized(&self) -> Result<(), Refusal>
        ensures { let t = self.now in code_of result ≡ sized_code t.n t.m t.opens.now t.callouts.now }
    {
        self.accepted()?;
        size(self.m)
    }

    // 1 to 6, for a tally of so many words.
    #[tactic(auto, using(model::proofs::Refusals::sized_passed), unfolding(model::specs::CountAnswers::count_code, model::specs::Refusal::code_of))]
    pub fn counted(&self, tally_len: usize) -> Result<(), Refusal>
        ensures { let t = self.now in code_of result ≡ count_code t.n t.m t.opens.now t.callouts.now tally_len }
    {
        self.sized()?;
        tally(self.m, tally_len)
    }

    // 1 to 5, and 7.
    #[tactic(auto, unfolding(model::specs::PriceAnswers::untallied_price_code, model::specs::Refusal::code_of))]
    pub fn priced_untallied(&self, vehicles: u64) -> Result<(), Refusal>
        ensures { let t = self.now in code_of result ≡ untallied_price_code t.n t.m t.opens.now t.callouts.now vehicles }
    {
        self.sized()?;
        fleet(vehicles)
    }

    // 1 to 7.
    #[tactic(auto, unfolding(model::specs::PriceAnswers::price_code, model::specs::Refusal::code_of))]
    pub fn priced(&self, vehicles: u64, tally_len: usize) -> Result<(), Refusal>
        ensures { let t = self.now in code_of result ≡ price_code t.n t.m t.opens.now t.callouts.now vehicles tally_len }
    {
        self.counted(tally_len)?;
        fleet(vehicles)
    }
}
