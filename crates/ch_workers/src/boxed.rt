ghost use Rattle.std.specs.Prelude.{◌≡◌, [], All, IfOk, map, vec_len};

use ch_contract::{Contraction, Facts};
use ch_estimate::{Estimator, Note};
use std::alloc::{AllocError, Global};

/// A boxed estimator, which does what the one in the box does.
#[derive(Drop)]
pub(crate) struct Boxed {
    inner: Box<dyn Estimator + Send>,
}

impl Boxed {
    /// Takes the box as it is.
    pub(crate) fn new(inner: Box<dyn Estimator + Send>) -> Boxed
        ensures { result.inner ≡ inner }
    {
        Boxed { inner }
    }
}

impl Estimator for Boxed {
    ghost heard = { λ b. (Estimator-box b.inner).heard b.inner.value };

    fn key(&mut self, facts: &Facts) -> u64 {
        self.inner.key(facts)
    }

    fn told(&mut self, entry: &Contraction) -> Result<(), AllocError> {
        self.inner.told(entry)
    }

    fn note(&self, node: u32) -> Note {
        self.inner.note(node)
    }
}

/// The estimators of each list, as types of this crate.
pub(crate) fn box_lists(
    alloc: Global,
    lists: Vec<Vec<Box<dyn Estimator + Send>>>,
) -> Result<Vec<Vec<Boxed>>, AllocError>
    requires untold { All (λ list. All (λ estimator. heard estimator ≡ []) list.items) lists.items }
    ensures untold { IfOk result (λ made. All (λ list. All (λ estimator. ⟦<Boxed as Estimator>⟧.heard estimator ≡ []) list.items) made.items) }
    ensures count { IfOk result (λ made. vec_len made ≡ vec_len lists) }
{
    let mut made = Vec::new(alloc);
    'lists: for list in lists {
        made.push(boxes_of(alloc, list)?)?;
    }
    Ok(made)
}

/// The estimators of a list, as types of this crate.
fn boxes_of(
    alloc: Global,
    estimators: Vec<Box<dyn Estimator + Send>>,
) -> Result<Vec<Boxed>, AllocError>
    ensures same { IfOk result (λ made. map (λ boxed. boxed.inner) made.items ≡ estimators.items) }
{
    let mut made = Vec::new(alloc);
    'estimators: for estimator in estimators {
        made.push(Boxed::new(estimator))?;
    }
    Ok(made)
}
