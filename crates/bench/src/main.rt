// The bench pieces about operators: a line a call with its name, number, place, step, V, E and F.

#![tactic(auto)]

use cases::answers::Called;
use cases::lenient::Dropping;
use cases::shapes::{PILLOW, T, TRIANGLE, TWO_T};
use mesh::{Mesh, MeshMut};
use std::io;

fn gyro(
    rt: &impl Print,
    name: &str,
    shape: Mesh<'_>,
    ratio: Option<f32>,
    height: Option<f32>,
) -> io::Result<()> {
    let mut o = [0u32; 64];
    let mut c = [0u32; 256];
    let mut x = [0.0f32; 256];
    let mut out = MeshMut {
        offsets: &mut o,
        corners: &mut c,
        coords: &mut x,
    };
    let answer = operators::gyro(shape, ratio, height, &mut out);
    println!(rt; "{name} {}", Called(answer))
}

fn dual(rt: &impl Print, name: &str, shape: Mesh<'_>) -> io::Result<()> {
    let mut o = [0u32; 64];
    let mut c = [0u32; 256];
    let mut x = [0.0f32; 256];
    let mut out = MeshMut {
        offsets: &mut o,
        corners: &mut c,
        coords: &mut x,
    };
    let answer = operators::dual(shape, &mut out);
    println!(rt; "{name} {}", Called(answer))
}

fn gyros(rt: &impl Print) -> io::Result<()> {
    let absent: Option<f32> = None;
    gyro(rt, "gyro of t", T, absent, absent)?;
    gyro(rt, "gyro of the pillow", PILLOW, absent, absent)?;
    gyro(rt, "gyro of two t at vertex 0", TWO_T, absent, absent)
}

fn duals(rt: &impl Print) -> io::Result<()> {
    dual(rt, "dual of t", T)?;
    dual(rt, "dual of one triangle", TRIANGLE)?;
    dual(rt, "dual of the pillow", PILLOW)?;
    dual(rt, "dual of two t at vertex 0", TWO_T)
}

fn endless(rt: &impl Print) -> io::Result<()> {
    let absent: Option<f32> = None;
    let endless = Some(f32::INFINITY);
    gyro(rt, "ratio infinity", T, endless, absent)?;
    gyro(rt, "height infinity", T, absent, endless)?;
    gyro(rt, "both infinity", T, endless, endless)
}

// The 60 coordinates of T's gyro, and zeros.
fn gyro_of_t(ratio: f32) -> [f32; 64] {
    let mut o = [0u32; 64];
    let mut c = [0u32; 256];
    let mut x = [0.0f32; 64];
    let mut out = MeshMut {
        offsets: &mut o,
        corners: &mut c,
        coords: &mut x,
    };
    let _ = operators::gyro(T, Some(ratio), None, &mut out);
    x
}

fn compare(rt: &impl Print, name: &str, a: &[f32; 64], b: &[f32; 64]) -> io::Result<()> {
    let said = if a == b { "agree" } else { "differ" };
    println!(rt; "{name} {said}")
}

// The coordinates of T's gyro at two ratios.
fn clamped(rt: &impl Print) -> io::Result<()> {
    let two = gyro_of_t(2.0);
    let one = gyro_of_t(1.0);
    let half = gyro_of_t(0.5);
    compare(rt, "ratio 2 and ratio 1", &two, &one)?;
    compare(rt, "ratio 0.5 and ratio 1", &half, &one)
}

fn main(rt: HostRuntime) -> io::Result<()> {
    let rt = Dropping(&rt);
    gyros(&rt)?;
    duals(&rt)?;
    endless(&rt)?;
    clamped(&rt)
}
