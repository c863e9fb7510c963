//! Plans: how many bits each level of the tree takes.
#![tactic(auto)]

ghost use Rattle.std.specs.Prelude.{◌≡◌, ⊤, true, is_ok, IfOk, IfErr};
ghost use Rattle.faults.specs.Numbers.{of_table};
ghost use Rattle.model.specs.Plans.{plan_ok};

use address::Address;
use arrayvec::ArrayVec;
use faults::{Fault, Refusal};
use std::alloc::AllocError;
use std::marker::PhantomData;

/// A plan for addresses of a kind: 1 to 32 strides, each from 1 to 6, with a sum one above the width. It lies in the value itself.
#[derive(Drop)]
pub struct Plan<A: Address> {
    strides: ArrayVec<u8, 32>,
    kind: PhantomData<A>,
    pub ghost right: { plan_ok A.Address.WIDTH strides.items ≡ true },
}

/// Whether the strides are a plan for addresses of so many bits: 1 to 32 of them, each from 1 to 6, with a sum one above the width.
pub fn is_plan(width: u32, strides: &[u8]) -> bool
    ensures { result ≡ plan_ok width strides.now }
{
    if strides.is_empty() || strides.len() > 32 {
        return false;
    }
    let mut sum: u32 = 0;
    // With an index, summing and testing: a rule of the project for the check of a plan.
    for i in 0..strides.len() {
        let stride = strides[i];
        if stride < 1 || stride > 6 {
            return false;
        }
        sum += u32::from(stride);
    }
    sum > 0 && sum - 1 == width
}

impl<A: Address> Plan<A> {
    ghost use Rattle.plan.specs.Strides.{strides_of};

    /// The plan of these strides; refused where they are none.
    #[tactic(auto, using(crate::proofs::Strides::plan_size))]
    pub fn new(strides: &[u8]) -> Result<Plan<A>, Fault>
        ensures taken { is_ok result ≡ plan_ok A.Address.WIDTH strides.now }
        ensures value { IfOk result (λ plan. strides_of plan ≡ strides.now) }
        ensures refusal { IfErr result (λ fault. fault ≡ of_table Refusal.Plan) }
    {
        match ArrayVec::try_from(strides) {
            Ok(held) if is_plan(A::WIDTH, strides) => Ok(Plan {
                strides: held,
                kind: PhantomData,
            }),
            _ => Err(Fault::of_table(Refusal::Plan)),
        }
    }

    /// The strides, in order.
    pub fn strides(&self) -> &[u8]
        ensures value { result.now ≡ strides_of self.now }
        ensures right { plan_ok A.Address.WIDTH result.now ≡ true }
    {
        self.strides.as_slice()
    }
}

impl<A: Address> Clone for Plan<A> {
    ghost use Rattle.plan.specs.Strides.{strides_of};

    ghost is_clone = { λ a b. strides_of b ≡ strides_of a };

    ghost is_infallible = { λ _. ⊤ };

    fn clone(&self) -> Result<Self, AllocError> {
        Ok(Plan {
            strides: self.strides.clone()?,
            kind: PhantomData,
        })
    }
}
