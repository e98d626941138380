// The functions that a code calls.

use crate::leaves::Leaf;
use cases::fault::Fault;
use cases::operator::Operator;

#[derive(Clone, Copy)]
pub enum Code {
    Operator(Operator),
    Roots,
    Leaf(Leaf),
    Check,
    CheckFull,
    Edges,
}

impl TryFrom<u32> for Code {
    type Error = Fault;

    fn try_from(code: u32) -> Result<Code, Fault> {
        match code {
            20 => Ok(Code::Roots),
            21 => Ok(Code::Leaf(Leaf::Centroid)),
            22 => Ok(Code::Leaf(Leaf::AverageNormal)),
            23 => Ok(Code::Leaf(Leaf::IsRegular)),
            24 => Ok(Code::Check),
            25 => Ok(Code::CheckFull),
            26 => Ok(Code::Edges),
            _ => Ok(Code::Operator(Operator::try_from(code)?)),
        }
    }
}
