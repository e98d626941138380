// Points by value, and the finite test.

#![tactic(auto)]

ghost use Rattle.std.specs.Prelude.{◌≡◌, length};
ghost use Rattle.point.specs.Vector.{zero_p, add_p, sub_p, scale_p, div_p, dot_p, cross_p, mag_sq_p, mag_p, normalized_p, orthogonal_p, clamp_f};
ghost use Rattle.std.specs.Float.Ieee.Scale.{finite};
ghost use Rattle.slices.specs.First.{lowest};
ghost use Rattle.point.specs.Finite.{not_finite};

use std::ops::{Add, Div, Mul, Sub};

#[derive(Clone, Copy)]
pub struct Point {
    pub x: f32,
    pub y: f32,
    pub z: f32,
}

// The origin.
impl Default for Point {
    ghost is_default = { λ p. p ≡ zero_p };

    fn default() -> Point {
        Point {
            x: 0.0,
            y: 0.0,
            z: 0.0,
        }
    }
}

impl Add for Point {
    type Output = Point;

    ghost add_gives = { λ p q r. r ≡ add_p p q };

    fn add(self, q: Point) -> Point {
        Point {
            x: self.x + q.x,
            y: self.y + q.y,
            z: self.z + q.z,
        }
    }
}

impl Sub for Point {
    type Output = Point;

    ghost sub_gives = { λ p q r. r ≡ sub_p p q };

    fn sub(self, q: Point) -> Point {
        Point {
            x: self.x - q.x,
            y: self.y - q.y,
            z: self.z - q.z,
        }
    }
}

impl Mul<f32> for Point {
    type Output = Point;

    ghost mul_gives = { λ p k r. r ≡ scale_p p k };

    fn mul(self, k: f32) -> Point {
        Point {
            x: self.x * k,
            y: self.y * k,
            z: self.z * k,
        }
    }
}

impl Div<f32> for Point {
    type Output = Point;

    ghost div_gives = { λ p k r. r ≡ div_p p k };

    fn div(self, k: f32) -> Point {
        Point {
            x: self.x / k,
            y: self.y / k,
            z: self.z / k,
        }
    }
}

impl Point {
    pub fn dot(self, q: Point) -> f32
        ensures { result ≡ dot_p self q }
    {
        self.x * q.x + self.y * q.y + self.z * q.z
    }

    pub fn cross(self, q: Point) -> Point
        ensures { result ≡ cross_p self q }
    {
        Point {
            x: self.y * q.z - self.z * q.y,
            y: self.z * q.x - self.x * q.z,
            z: self.x * q.y - self.y * q.x,
        }
    }

    pub fn mag_sq(self) -> f32
        ensures { result ≡ mag_sq_p self }
    {
        self.dot(self)
    }

    pub fn mag(self) -> f32
        ensures { result ≡ mag_p self }
    {
        root::root(self.mag_sq())
    }

    pub fn normalized(self) -> Point
        ensures { result ≡ normalized_p self }
    {
        self / self.mag()
    }
}

pub fn orthogonal(p: Point, q: Point, r: Point) -> Point
    ensures { result ≡ orthogonal_p p q r }
{
    (q - p).cross(r - q)
}

// Neither a NaN nor an infinity.
pub fn is_finite(x: f32) -> bool
    ensures { result ≡ finite x }
{
    x.is_finite()
}

// The lowest place whose number is not finite.
pub fn first_not_finite(coords: &[f32]) -> Option<usize>
    ensures { result ≡ lowest (not_finite coords.now) (length coords.now) }
{
    coords.iter().position(|x| !is_finite(*x))
}

pub fn clamp(x: f32) -> f32
    ensures { result ≡ clamp_f x }
{
    x.clamp(0.0, 1.0)
}
