// A table of numbers, row after row: the statistics of its columns.
ghost use Rattle.std.specs.Prelude.{◌≡◌, ◌+◌, ◌*◌, ◌≤◌, ◌<◌, length};
ghost use Rattle.arith.specs.Sums.{sum_over};
ghost use Rattle.gp_model.specs.Statistics.{column_of, squares_of, mean_of, variance_of};
ghost use Rattle.gp_model.specs.Kernels.{row_of};

// n rows of d columns.
// Kept: with its counts, since the cells may be more than the rows', and say nothing of them without a column.
#[derive(Clone, Copy)]
pub(crate) struct Table<'a> {
    pub(crate) cells: &'a [f64],
    pub(crate) n: usize,
    pub(crate) d: usize,
    ghost rows: { n ≤ 100 },
    ghost columns: { d ≤ 20 },
    ghost whole: { length cells.now ≡ n * d },
}

impl<'a> Table<'a> {
    // Row i.
    pub(crate) fn row(&self, i: usize) -> &[f64]
        requires { i < self.now.n }
        ensures { (result.now ≡ row_of self.now.cells.now self.now.d i) × (length result.now ≡ self.now.d) }
    {
        let start = i * self.d;
        &self.cells[start..start + self.d]
    }

    // The sum of column j.
    #[tactic(auto, unfolding(arith::specs::Sums::sum_over))]
    fn column_sum(&self, j: usize) -> f64
        requires { j < self.now.d }
        ensures { result ≡ sum_over self.now.n (column_of self.now.cells.now self.now.d j) }
    {
        let mut total = 0.0;
        for i in 0..self.n {
            total = total + self.cells[i * self.d + j];
        }
        total
    }

    // The sum of the squares of its distances from m.
    // Kept: beside column_sum's loop; one for both takes a closure, a clause that it may be called on each cell, one
    // that says its term there, and a proof of both in each caller, for a loop of two lines.
    #[tactic(auto, unfolding(arith::specs::Sums::sum_over))]
    fn column_squares(&self, j: usize, m: f64) -> f64
        requires { j < self.now.d }
        ensures { result ≡ squares_of self.now.n (column_of self.now.cells.now self.now.d j) m }
    {
        let mut total = 0.0;
        for i in 0..self.n {
            let e = self.cells[i * self.d + j] - m;
            total = total + e * e;
        }
        total
    }

    // The mean of column j.
    #[tactic(auto, unfolding(crate::specs::Statistics::mean_of))]
    pub(crate) fn mean(&self, j: usize) -> f64
        requires { j < self.now.d }
        ensures { result ≡ mean_of self.now.n (column_of self.now.cells.now self.now.d j) }
    {
        self.column_sum(j) / self.n as f64
    }

    // Its variance over k.
    #[tactic(auto, unfolding(crate::specs::Statistics::variance_of))]
    pub(crate) fn variance(&self, j: usize, k: usize) -> f64
        requires { (j < self.now.d) × (k ≤ 100) }
        ensures { result ≡ variance_of self.now.n k (column_of self.now.cells.now self.now.d j) }
    {
        self.column_squares(j, self.mean(j)) / k as f64
    }
}
