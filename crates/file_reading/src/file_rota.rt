// The rota in a file.
ghost use Rattle.std.specs.Prelude.{◌≡◌, ◌≤◌, take};

// n items, whose words are followed by zeros: fixed tables, no heap.
#[derive(Clone, Copy)]
pub struct FileRota {
    pub n: usize,
    pub opens: [u64; 64],
    pub callouts: [u64; 64],
    pub ghost few: { n ≤ 64 },
}

impl FileRota {
    // The open words of its items.
    pub fn opens(&self) -> &[u64]
        ensures { result.now ≡ take self.now.n self.now.opens }
    {
        &self.opens[..self.n]
    }

    // The callout words of its items.
    pub fn callouts(&self) -> &[u64]
        ensures { result.now ≡ take self.now.n self.now.callouts }
    {
        &self.callouts[..self.n]
    }
}
