// Shows the mathematics at work: each line is a call and the bits of its answer.
#![tactic(auto)]

use std::io;

fn show(rt: &impl Print, call: &str, answer: f32) -> io::Result<()> {
    let word = maths::word_of(answer);
    println!(rt; "{call}{word:08x}")
}

fn show_roots(rt: &impl Print) -> io::Result<()> {
    show(rt, "sqrt(2)                ", maths::sqrt(2.0))?;
    show(rt, "sqrt(-0)               ", maths::sqrt(-0.0))?;
    show(rt, "sqrt(-1), a NaN        ", maths::sqrt(-1.0))?;
    show(rt, "hypot(3, 4)            ", maths::hypot(3.0, 4.0))?;
    show(rt, "cbrt(-27)              ", maths::cbrt(-27.0))?;
    show(rt, "two_thirds(8)          ", maths::two_thirds(8.0))
}

fn show_numbers(rt: &impl Print) -> io::Result<()> {
    show(rt, "half(4400), that is 4  ", maths::half(0x4400))?;
    show(rt, "half(0001), the least  ", maths::half(1))?;
    show(rt, "floor(-0.5)            ", maths::floor(-0.5))?;
    show(rt, "ceil(-0.5), a -0       ", maths::ceil(-0.5))?;
    show(rt, "max(NaN, 1)            ", maths::max(0.0 / 0.0, 1.0))?;
    show(rt, "min(+0, -0)            ", maths::min(0.0, -0.0))
}

fn show_angles(rt: &impl Print) -> io::Result<()> {
    show(rt, "sin(1)                 ", maths::sin(1.0))?;
    show(rt, "sin(-0)                ", maths::sin(-0.0))?;
    show(rt, "cos(0)                 ", maths::cos(0.0))?;
    show(rt, "sin(100000)            ", maths::sin(100000.0))?;
    show(rt, "acos(0), half of pi    ", maths::acos(0.0))?;
    show(rt, "atan2(0, -1), pi       ", maths::atan2(0.0, -1.0))?;
    show(rt, "asin(2), a NaN         ", maths::asin(2.0))
}

fn main(rt: HostRuntime) -> io::Result<()> {
    show_roots(&rt)?;
    show_numbers(&rt)?;
    show_angles(&rt)
}
