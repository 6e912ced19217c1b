// The matrix that elimination starts from, and the coefficients read out of the one that it leaves.
ghost use Rattle.std.specs.Prelude.{◌≡◌, ◌+◌, ◌-◌, ◌*◌, ◌<◌, ◌≤◌, ◌++◌, length, IfOk, OnOk};
ghost use Rattle.elimination.specs.Matrix.{powers, matrix_of, column, further_columns};

use crate::matrix::Matrix;
use std::alloc::{AllocError, Global};

// Pushes the first `k` powers of `x`.
fn push_powers(cells: &mut Vec<u8>, x: u8, k: usize) -> Result<(), AllocError>
    ensures { OnOk result (cells.new.items ≡ cells.old.items ++ powers x k) }
{
    let mut next = 1;
    for _t in 0..k {
        cells.push(next)?;
        next = byte_field::product(x, next);
    }
    Ok(())
}

impl Matrix {
    // A row for each point: the powers of the point, and then the values there, `width` of them. Those are told by the point's number, since `width` may be 0, and
    // no chunks have 0 bytes.
    pub fn of(
        heap: Global,
        points: &[u8],
        values: &[u8],
        width: usize,
    ) -> Result<Matrix, AllocError>
        requires { length values.now ≡ length points.now * width }
        ensures shape { IfOk result (λ m. (m.rows ≡ length points.now) × (m.width ≡ length points.now + width)) }
        ensures cells { IfOk result (λ m. m.cells.items ≡ matrix_of points.now values.now width) }
    {
        let rows = points.len();
        let wide = rows.checked_add(width).ok_or(AllocError)?;
        let size = rows.checked_mul(wide).ok_or(AllocError)?;
        let mut cells = Vec::with_capacity(heap, size)?;
        for (i, x) in points.iter().enumerate() {
            push_powers(&mut cells, *x, rows)?;
            cells.extend_from_slice(&values[i * width..i * width + width])?;
        }
        let copied = vec![in heap; 0; wide]?;
        Ok(Matrix {
            cells,
            rows,
            width: wide,
            copied,
        })
    }

    // Pushes column `c`.
    fn push_column(&self, out: &mut Vec<u8>, c: usize) -> Result<(), AllocError>
        requires { c < self.now.width }
        ensures { OnOk result (out.new.items ≡ out.old.items ++ column self.now.rows self.now.width self.now.cells.items c) }
    {
        // One by one: a call of `extend` for each column costs as much again where there are few rows.
        for i in 0..self.rows {
            out.push(self.entry(i, c))?;
        }
        Ok(())
    }

    // The columns past the square at the front, one after the other. `size` is how many bytes that makes.
    pub fn further_columns(&self, heap: Global, size: usize) -> Result<Vec<u8>, AllocError>
        requires { self.now.rows ≤ self.now.width }
        ensures { IfOk result (λ v. v.items ≡ further_columns self.now.rows (self.now.width - self.now.rows) self.now.cells.items) }
    {
        let mut out = Vec::with_capacity(heap, size)?;
        for c in self.rows..self.width {
            self.push_column(&mut out, c)?;
        }
        Ok(out)
    }
}
