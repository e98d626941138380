// The codes 1 to 11, the operators.

ghost use Rattle.std.specs.Prelude.{◌≡◌, IfErr};
ghost use Rattle.cases.specs.declared.fault.Fault.TheVariants.{BadCase};

use crate::fault::Fault;

#[derive(Clone, Copy)]
pub enum Operator {
    Ambo,
    Chamfer,
    Dual,
    Gyro,
    Kis,
    Propellor,
    Quinto,
    Reflect,
    Reverse,
    Whirl,
    Triangulate,
}

impl TryFrom<u32> for Operator {
    type Error = Fault;

    ghost try_from_gives = { λ _ r. IfErr r (λ why. why ≡ BadCase) };

    fn try_from(code: u32) -> Result<Operator, Fault> {
        match code {
            1 => Ok(Operator::Ambo),
            2 => Ok(Operator::Chamfer),
            3 => Ok(Operator::Dual),
            4 => Ok(Operator::Gyro),
            5 => Ok(Operator::Kis),
            6 => Ok(Operator::Propellor),
            7 => Ok(Operator::Quinto),
            8 => Ok(Operator::Reflect),
            9 => Ok(Operator::Reverse),
            10 => Ok(Operator::Whirl),
            11 => Ok(Operator::Triangulate),
            _ => Err(Fault::BadCase),
        }
    }
}
