// The ten lists of operators that document 01 names: their steps, and whether a list takes arities of its own.

#![tactic(auto)]

ghost use Rattle.std.specs.Prelude.{◌≡◌, ◌≤◌, List, length, take};
ghost use Rattle.steps.specs.declared.Step.{Step};
ghost use Rattle.named.specs.Named.{list_steps, defaulted};

use std::marker::Model;
use steps::Step;

// With its ratio, its height, or both in this order.
#[derive(Clone, Copy)]
pub enum NamedList {
    Bevel(Option<f32>, Option<f32>),
    Expand(Option<f32>),
    Join(Option<f32>),
    Medial(Option<f32>, Option<f32>),
    Meta(Option<f32>, Option<f32>),
    Needle(Option<f32>),
    Ortho(Option<f32>),
    Snub(Option<f32>, Option<f32>),
    Truncate(Option<f32>),
    Zip(Option<f32>),
}

// The steps of a list: the first `count` of these.
#[derive(Clone, Drop)]
pub struct Steps {
    steps: [Step; 6],
    count: usize,
}

impl Model for Steps {
    ghost Value = { List Step };

    ghost view = { λ s. take s.count s.steps };

    ghost invariant = { λ s. s.count ≤ 6 };
}

impl Steps {
    // These steps.
    fn of(list: &[Step]) -> Self
        requires { length list.now ≤ 6 }
        ensures { result ≡ list.now }
    {
        let mut steps = [Step::Dual; 6];
        steps[..list.len()].copy_from_slice(list);
        Steps {
            steps,
            count: list.len(),
        }
    }

    // The steps.
    pub fn as_slice(&self) -> &[Step]
        ensures { result.now ≡ self.now }
    {
        &self.steps[..self.count]
    }
}

// The steps of a list; join inside meta and ortho counts as its three.
pub fn steps_of(l: NamedList) -> Steps
    ensures { result ≡ list_steps l }
{
    use NamedList::{Bevel, Expand, Join, Medial, Meta, Needle, Ortho, Snub, Truncate, Zip};
    use Step::{Ambo, Dual, Gyro, Kis};
    match l {
        Bevel(t, h) => Steps::of(&[Ambo(t), Dual, Kis(h), Dual]),
        Expand(t) => Steps::of(&[Ambo(t), Ambo(t)]),
        Join(t) => Steps::of(&[Dual, Ambo(t), Dual]),
        Medial(t, h) => Steps::of(&[Ambo(t), Dual, Kis(h), Dual, Dual]),
        Meta(t, h) => Steps::of(&[Dual, Ambo(t), Dual, Kis(h)]),
        Needle(h) => Steps::of(&[Dual, Kis(h), Dual, Dual]),
        Ortho(t) => Steps::of(&[Dual, Ambo(t), Dual, Dual, Ambo(t), Dual]),
        Snub(t, h) => Steps::of(&[Dual, Gyro(t, h), Dual]),
        Truncate(h) => Steps::of(&[Dual, Kis(h), Dual]),
        Zip(h) => Steps::of(&[Kis(h), Dual]),
    }
}

// Whether a list takes arities of its own, where they are given or not.
pub fn defaults(l: NamedList, given: bool) -> bool
    ensures { result ≡ defaulted l given }
{
    matches!(l, NamedList::Meta(_, _)) && !given
}
