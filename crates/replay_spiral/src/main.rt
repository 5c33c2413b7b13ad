// Replays the list on standard input, which docs/ORACLE.md describes. Here are the calls of `spiral` by their numbers
// in the list.
#![tactic(auto)]

mod list;

use spiral::euler::{CubicParams, EulerParams, EulerSeg};
use spiral::util::Vec2;
use spiral::{euler, util};
use std::io;

// A call's answer: zeros behind its own numbers.
#[derive(Clone, Copy)]
struct Answer(f32, f32, f32, f32);

fn number(x: f32) -> Answer {
    Answer(x, 0.0, 0.0, 0.0)
}

fn truth(b: bool) -> Answer {
    if b { number(1.0) } else { number(0.0) }
}

fn point(p: Vec2) -> Answer {
    Answer(p.x, p.y, 0.0, 0.0)
}

fn cubic(v: [f32; 10]) -> Answer {
    let p0 = Vec2::new(v[0], v[1]);
    let p1 = Vec2::new(v[2], v[3]);
    let q0 = Vec2::new(v[4], v[5]);
    let q1 = Vec2::new(v[6], v[7]);
    let c = CubicParams::from_points_derivs(p0, p1, q0, q1, v[8]);
    Answer(c.th0, c.th1, c.chord_len, c.err)
}

fn angles(v: [f32; 10]) -> Answer {
    let e = EulerParams::from_angles(v[0], v[1]);
    Answer(e.th0, e.k0, e.k1, e.ch)
}

fn params(v: [f32; 10]) -> EulerParams {
    EulerParams {
        th0: v[0],
        k0: v[1],
        k1: v[2],
        ch: v[3],
    }
}

fn along(v: [f32; 10]) -> Answer {
    let p0 = Vec2::new(v[4], v[5]);
    let p1 = Vec2::new(v[6], v[7]);
    let seg = EulerSeg::from_params(p0, p1, params(v));
    point(seg.eval_with_offset(v[8], v[9]))
}

fn applied(v: [f32; 10]) -> Answer {
    let z = [v[0], v[1], v[2], v[3], v[4], v[5]];
    point(util::apply(z, Vec2::new(v[6], v[7])))
}

// The calls on points, by numbers that a list holds: as an enum, each call would be named once more.
fn of_points(call: u32, v: [f32; 10]) -> Answer {
    let p = Vec2::new(v[0], v[1]);
    let q = Vec2::new(v[2], v[3]);
    match call {
        1 => point(p + q),
        2 => point(p - q),
        3 => point(p * v[2]),
        4 => point(p / v[2]),
        5 => point(-p),
        6 => number(p.dot(q)),
        7 => number(p.length()),
        8 => number(p.length_squared()),
        9 => point(p.mix(q, v[4])),
        10 => point(p.normalize()),
        11 => number(p.atan2()),
        12 => truth(p.is_nan()),
        _ => truth(p == q),
    }
}

// By numbers that a list holds, as above.
fn run(call: u32, v: [f32; 10]) -> Answer {
    match call {
        14 => applied(v),
        15 => point(util::apply(util::identity(), Vec2::new(v[0], v[1]))),
        16 => cubic(v),
        17 => angles(v),
        18 => number(params(v).eval_th(v[4])),
        19 => along(v),
        20 => number(euler::espc_int_approx(v[0])),
        21 => number(euler::espc_int_inv_approx(v[0])),
        _ => of_points(call, v),
    }
}

fn main(rt: HostRuntime) -> io::Result<()> {
    list::replay_all(&rt)
}
