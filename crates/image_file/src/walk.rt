//! One walk over the operations of outputs and cells, beside the operations.

ghost use Rattle.std.specs.Prelude.{◌≡◌, ◌==◌, ◌+◌, cond, slice_get};
ghost use Rattle.op_graph.specs.Rules.{numbered, cell_entry, place_of};
ghost use Rattle.op_graph.specs.Walk.{entry_at, store_at, is_of};
ghost use Rattle.image_file.specs.Views.{scope_of, Rising, IsAt};

use crate::scope::Scope;
use op_graph::{Entry, Loaded, Outlet, Place, Var, entries_are_found_by_one_walk};

/// Where the walk is: how many outputs, LOADs and STOREs are of earlier operations.
#[derive(Clone, Copy)]
pub(crate) struct Walk {
    out: usize,
    load: usize,
    store: usize,
}

/// Input `i`, of which operation `i` is.
fn input_at(inputs: &[Var], i: u32) -> Option<Entry>
    ensures { result ≡ numbered i (slice_get inputs.now i) }
{
    match inputs.get(i as usize) {
        None => None,
        Some(v) => Some(Entry {
            number: i as usize,
            ty: v.ty,
        }),
    }
}

/// Output `k`, where it is of operation `i`, and the number of the output to come next.
fn output_at(outputs: &[Outlet], k: usize, i: u32) -> (Option<Entry>, usize)
    ensures entry { result.0 ≡ entry_at (λ o. o.op) (λ o. o.ty) i k (slice_get outputs.now k) }
    ensures next { result.1 ≡ cond (is_of (λ o. o.op) i (slice_get outputs.now k)) (k + 1) k }
{
    match outputs.get(k) {
        None => (None, k),
        Some(o) => {
            if o.op == i {
                let entry = Entry {
                    number: k,
                    ty: o.ty,
                };
                (Some(entry), k + 1)
            } else {
                (None, k)
            }
        }
    }
}

/// Cell `k`, where operation `i` is its LOAD, and the number of the cell whose LOAD is to come next.
fn loaded_at(loads: &[Loaded], k: usize, i: u32) -> (Option<Entry>, usize)
    ensures entry { result.0 ≡ entry_at (λ l. l.load) (λ l. l.ty) i k (slice_get loads.now k) }
    ensures next { result.1 ≡ cond (is_of (λ l. l.load) i (slice_get loads.now k)) (k + 1) k }
{
    match loads.get(k) {
        None => (None, k),
        Some(l) => {
            if l.load == i {
                let entry = Entry {
                    number: k,
                    ty: l.ty,
                };
                (Some(entry), k + 1)
            } else {
                (None, k)
            }
        }
    }
}

/// Cell `k`, where it is there.
fn cell_at(loads: &[Loaded], k: usize) -> Option<Entry>
    ensures { result ≡ cell_entry k (slice_get loads.now k) }
{
    match loads.get(k) {
        None => None,
        Some(l) => Some(Entry {
            number: k,
            ty: l.ty,
        }),
    }
}

/// Cell `k`, where operation `i` is its STORE, and the number of the cell whose STORE is to come next.
fn stored_at(loads: &[Loaded], stores: &[u32], k: usize, i: u32) -> (Option<Entry>, usize)
    ensures entry { result.0 ≡ store_at loads.now i k (slice_get stores.now k) }
    ensures next { result.1 ≡ cond (is_of (λ n. n) i (slice_get stores.now k)) (k + 1) k }
{
    match stores.get(k) {
        None => (None, k),
        Some(n) => {
            if *n == i {
                (cell_at(loads, k), k + 1)
            } else {
                (None, k)
            }
        }
    }
}

impl Walk {
    /// At the front.
    pub(crate) fn new(s: &Scope<'_>) -> Walk
        ensures { IsAt (scope_of s.now) 0 result }
    {
        entries_are_found_by_one_walk();
        let _scope = *s;
        Walk {
            out: 0,
            load: 0,
            store: 0,
        }
    }

    /// What operation `i` is by the other lists, where the walk has come to it. It goes past the operation.
    pub(crate) fn place(&mut self, s: &Scope<'_>, i: u32) -> Place
        requires rising { Rising (scope_of s.now) }
        requires here { IsAt (scope_of s.now) i self.old }
        ensures place { result ≡ place_of (scope_of s.now) i }
        ensures past { IsAt (scope_of s.now) (i + 1) self.new }
    {
        entries_are_found_by_one_walk();
        let (out, next_out) = output_at(s.outputs, self.out, i);
        let (load, next_load) = loaded_at(s.loads, self.load, i);
        let (store, next_store) = stored_at(s.loads, s.stores, self.store, i);
        *self = Walk {
            out: next_out,
            load: next_load,
            store: next_store,
        };
        Place {
            input: input_at(s.inputs, i),
            load,
            store,
            out,
        }
    }
}
