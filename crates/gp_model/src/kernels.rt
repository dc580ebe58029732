// The kernel at signal variance 1, over the rows of a table.
ghost use Rattle.std.specs.Prelude.{◌≡◌, ◌+◌, ◌≤◌, ◌<◌, length};
ghost use Rattle.arith.specs.Lists.{padded};
ghost use Rattle.factor.specs.Triangle.{rows_of};
ghost use Rattle.gp_model.specs.Kernels.{similarity_of, covariance_of, kernel_matrix_of};

use crate::tables::Table;

// The kernel of two points of one length.
fn similarity(x1: &[f64], x2: &[f64], lengthscales: &[f64]) -> f64
    requires { (length x1.now ≡ length x2.now) × (length x1.now ≡ length lengthscales.now) }
    ensures { result ≡ similarity_of x1.now x2.now lengthscales.now }
{
    kernel::matern52(x1, x2, lengthscales, 1.0).unwrap()
}

// K + σ² I, for the rows of a table.
#[derive(Drop)]
pub(crate) struct Covariances<'a> {
    pub(crate) x: Table<'a>,
    pub(crate) lengthscales: &'a [f64],
    pub(crate) noise_var: f64,
    ghost one_each: { length lengthscales.now ≡ x.d },
}

impl<'a> Covariances<'a> {
    // Entry (i, j).
    #[tactic(auto, unfolding(crate::specs::Kernels::covariance_of))]
    fn entry(&self, i: usize, j: usize) -> f64
        requires { (i < self.now.x.n) × (j ≤ i) }
        ensures { result ≡ covariance_of self.now.x.cells.now self.now.x.d self.now.lengthscales.now self.now.noise_var i j }
    {
        let k = similarity(self.x.row(i), self.x.row(j), self.lengthscales);
        if i == j { k + self.noise_var } else { k }
    }

    // Row i of the lower triangle, written behind the rows before it.
    fn write_row(&self, out: &mut [f64; 5050], i: usize)
        requires { (i < self.now.x.n) × (out.old ≡ padded 5050 (rows_of (covariance_of self.now.x.cells.now self.now.x.d self.now.lengthscales.now self.now.noise_var) i)) }
        ensures { out.new ≡ padded 5050 (rows_of (covariance_of self.now.x.cells.now self.now.x.d self.now.lengthscales.now self.now.noise_var) (i + 1)) }
    {
        let start = i * (i + 1) / 2;
        for j in 0..i + 1 {
            out[start + j] = self.entry(i, j);
        }
    }

    // The lower triangle, packed.
    pub(crate) fn lower_triangle(&self) -> [f64; 5050]
        ensures { result ≡ kernel_matrix_of self.now.x.cells.now self.now.x.n self.now.x.d self.now.lengthscales.now self.now.noise_var }
    {
        let mut out = [0.0; 5050];
        for i in 0..self.x.n {
            self.write_row(&mut out, i);
        }
        out
    }
}
