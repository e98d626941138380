// The plans of the operators, made of slots and sections.

#![tactic(auto)]

ghost use Rattle.std.specs.Prelude.{◌≡◌};
ghost use Rattle.plans.specs.Plans.{reverse_plan, reflect_plan, triangulate_plan, ambo_plan, dual_plan, kis_plan, chamfer_plan, gyro_plan, propellor_plan, whirl_plan, quinto_plan};

use engine::{Asks, Plan};
use picks::Mask;
use rule::{Kind, Move, Section, Shape, Slot};
use spots::{Change, Middle, Points, Spot, Tip};

// ---- slots: which vertex, and where it is seen from a corner

macro_rules! slot {
    ($kind:ident, $at:ident) => {
        Slot {
            kind: Kind::$kind,
            at: Move::$at,
        }
    };
}

const OLD: Slot = slot!(Old, Here);

const OLD_NEXT: Slot = slot!(Old, Next);

const DIR: Slot = slot!(Dir, Here);

const DIR_NEXT: Slot = slot!(Dir, Next);

const DIR_PREV: Slot = slot!(Dir, Prev);

const DIR_MATE: Slot = slot!(Dir, Mate);

const DIR_TURN: Slot = slot!(Dir, Turn);

const EDGE: Slot = slot!(Edge, Here);

const EDGE_PREV: Slot = slot!(Edge, Prev);

const COR: Slot = slot!(Cor, Here);

const COR_NEXT: Slot = slot!(Cor, Next);

const COR_PREV: Slot = slot!(Cor, Prev);

const COR_MATE: Slot = slot!(Cor, Mate);

const COR_MATE_NEXT: Slot = slot!(Cor, MateNext);

const FACE: Slot = slot!(Face, Here);

const APEX: Slot = slot!(Apex, Here);

// Fills a section up: nothing reads it.
const IDLE: Slot = OLD;

// ---- sections of no slots

const NONE: Section = Section {
    shape: Shape::Nothing,
    slots: [IDLE; 6],
    n: 0,
};

const BACKWARD: Section = Section {
    shape: Shape::Backward,
    slots: [IDLE; 6],
    n: 0,
};

// ---- sections of one slot, at each corner of a face or round each vertex

const INNER_EDGES: Section = Section {
    shape: Shape::Inner,
    slots: [EDGE; 6],
    n: 1,
};

const INNER_DIRS: Section = Section {
    shape: Shape::Inner,
    slots: [DIR; 6],
    n: 1,
};

const INNER_CORNERS: Section = Section {
    shape: Shape::Inner,
    slots: [COR; 6],
    n: 1,
};

const ROUND_FACES: Section = Section {
    shape: Shape::Vertices,
    slots: [FACE; 6],
    n: 1,
};

const ROUND_EDGES: Section = Section {
    shape: Shape::Vertices,
    slots: [EDGE_PREV; 6],
    n: 1,
};

// ---- sections of a rule

const KIS: Section = Section {
    shape: Shape::Picks,
    slots: [OLD, OLD_NEXT, APEX, IDLE, IDLE, IDLE],
    n: 3,
};

const CHAMFER: Section = Section {
    shape: Shape::Ups,
    slots: [OLD, COR_MATE_NEXT, COR_MATE, OLD_NEXT, COR_NEXT, COR],
    n: 6,
};

const GYRO: Section = Section {
    shape: Shape::Corners,
    slots: [OLD, DIR, FACE, DIR_PREV, DIR_TURN, IDLE],
    n: 5,
};

const PROPELLOR: Section = Section {
    shape: Shape::Corners,
    slots: [OLD, DIR_MATE, DIR, DIR_PREV, IDLE, IDLE],
    n: 4,
};

const WHIRL: Section = Section {
    shape: Shape::Corners,
    slots: [DIR, DIR_MATE, OLD_NEXT, DIR_NEXT, COR_NEXT, COR],
    n: 6,
};

const QUINTO: Section = Section {
    shape: Shape::Corners,
    slots: [OLD, EDGE, COR, COR_PREV, EDGE_PREV, IDLE],
    n: 5,
};

// ---- plans

const NO_MASK: Mask = Mask {
    arities: false,
    numbers: false,
    regular: false,
};

const KEPT: Points = Points::Olds(Change::Kept);

// No points, no faces: each plan says in what it differs.
const BLANK: Plan = Plan {
    asks: Asks::Open,
    olds: Points::Nothing,
    first: Points::Nothing,
    second: Points::Nothing,
    ratio: 0.0,
    height: 0.0,
    mask: NO_MASK,
    one: NONE,
    two: NONE,
};

pub fn reverse() -> Plan
    ensures { result ≡ reverse_plan }
{
    Plan {
        olds: KEPT,
        one: BACKWARD,
        ..BLANK
    }
}

pub fn reflect() -> Plan
    ensures { result ≡ reflect_plan }
{
    Plan {
        olds: Points::Olds(Change::Flipped),
        one: BACKWARD,
        ..BLANK
    }
}

pub fn triangulate(shorter: bool) -> Plan
    ensures { result ≡ triangulate_plan shorter }
{
    Plan {
        olds: KEPT,
        one: Section {
            shape: Shape::Triangles(shorter),
            slots: [IDLE; 6],
            n: 0,
        },
        ..BLANK
    }
}

pub fn ambo(ratio: f32) -> Plan
    ensures { result ≡ ambo_plan ratio }
{
    Plan {
        asks: Asks::Round,
        first: Points::Middles(Middle::Split),
        ratio,
        one: INNER_EDGES,
        two: ROUND_EDGES,
        ..BLANK
    }
}

pub fn dual() -> Plan
    ensures { result ≡ dual_plan }
{
    Plan {
        asks: Asks::Round,
        first: Points::Faces(Spot::Centre),
        one: ROUND_FACES,
        ..BLANK
    }
}

pub fn kis(mask: Mask, height: f32) -> Plan
    ensures { result ≡ kis_plan mask height }
{
    Plan {
        asks: Asks::Closed,
        olds: KEPT,
        first: Points::Picks(Spot::Apex),
        height,
        mask,
        one: KIS,
        ..BLANK
    }
}

pub fn chamfer(ratio: f32) -> Plan
    ensures { result ≡ chamfer_plan ratio }
{
    Plan {
        asks: Asks::Closed,
        olds: Points::Olds(Change::Scaled),
        first: Points::Corners(Tip::Inset),
        ratio,
        one: INNER_CORNERS,
        two: CHAMFER,
        ..BLANK
    }
}

pub fn gyro(ratio: f32, height: f32) -> Plan
    ensures { result ≡ gyro_plan ratio height }
{
    Plan {
        asks: Asks::Closed,
        olds: KEPT,
        first: Points::Faces(Spot::Crown),
        second: Points::Pairs,
        ratio,
        height,
        one: GYRO,
        ..BLANK
    }
}

pub fn propellor(ratio: f32) -> Plan
    ensures { result ≡ propellor_plan ratio }
{
    Plan {
        asks: Asks::Closed,
        olds: KEPT,
        first: Points::Pairs,
        ratio,
        one: INNER_DIRS,
        two: PROPELLOR,
        ..BLANK
    }
}

pub fn whirl(ratio: f32, height: f32) -> Plan
    ensures { result ≡ whirl_plan ratio height }
{
    Plan {
        asks: Asks::Closed,
        olds: KEPT,
        first: Points::Corners(Tip::Swirl),
        second: Points::Pairs,
        ratio,
        height,
        one: WHIRL,
        two: INNER_CORNERS,
        ..BLANK
    }
}

pub fn quinto(height: f32) -> Plan
    ensures { result ≡ quinto_plan height }
{
    Plan {
        asks: Asks::Closed,
        olds: KEPT,
        first: Points::Middles(Middle::Sum),
        second: Points::Corners(Tip::Third),
        height,
        one: INNER_CORNERS,
        two: QUINTO,
        ..BLANK
    }
}
