use crate::front::flat;
use std::test::Fail;

/// A program with each construct of the grammar. The case of the same name holds it too.
pub(crate) const EVERY_CONSTRUCT: &str =
    "(* Each construct of the grammar (* and a comment in a comment *). *)
let half = 0.5
let low = -2.5e-1
let five = 1 + 4
let yes = true
let twice(x) = x +. x
let mean(x: float, y) = (x +. y) *. half
let select(go: bool, n: int, m) = if go then n else m
let split(x, y) = (under, over) where under = x -. y and over = x /. 2.0
let shift(n) = m +. rest where rec m = float_of_int(n) +. low and (rest, other) = split(m, 1.)
let compared(a, b) = (a = b) && (a <> b) || (a < b) or (a <= b) & not (a > b) || a >= b
let node count(go) = n where rec n = 0 -> pre n + select(go, 1, - five * 2 / 3 mod 4)
let node since(go: bool) = n where rec n = 0 fby (if go then 0 else n + 1)
let node held(x, go) = y where rec init y = 1E+2 and y = if go then x else last y
let node pulse() = false -> true
let node chosen(go, n) = (m, k) where rec
    init m = 0
    and present
    | (go) -> local a, b in do a = n + 1 and b = a * 2 and m = b done
    | (n > 3 && not go) -> do m = last m - 1 done
    | (n = 7) -> do done
    else local c in do c = n mod 5 and m = c done
    end
    and init k = 0
    and automaton
    | Up -> local d, e in do d = last k + 1 and e = d and k = e
        until (d > 5) then Down else (e < - 5) continue Up until (go) continue Idle
    | Down -> do k = last k - 1 unless (n = 0) then Up else (n = 1) continue Idle
    | Idle -> do done
    end
let node again(go) = (p, q) where rec
    reset p = 0 fby (p + 1) and q = 1 -> pre q + 1 every (go)
let hybrid flow(start, rate: float) = x where rec
    der x = rate init start reset up(x -. 10.0) -> 0.0 | up(1.0 -. x) | up(half -. x) -> last x *. half
let hybrid main(go: bool, level: float, steps: int) = (x, y, n, z, w, s) where rec
    x = flow(0.0, level)
    and der y = 1.0 init mean(half, shift(five)) reset up(y -. 3.0) -> -. 0.5
    and der free = twice(-. level)
    and init free = 0.0
    and (under, over) = split(level, 2.0)
    and init n = 0
    and present up(y -. 1.0) ->
        local i, j in do (i, j) = chosen(go, steps) and n = i + j + select(compared(i, j), 1, 2) done
    | up(y -. 2.0) | up(x -. 3.0) ->
        local p, q in do (p, q) = again(go) and n = count(go) + since(pulse()) + truncate(held(under, go)) + p + q done
    | up(over -. y) -> do done
    end
    and init z = 0.0
    and automaton
    | Rise -> local d, f in do der z = d and d = 1.0 +. f and f = 2.0 and der w = f init 0.0
        until up(z -. 1.0) then Fall else up(z -. 2.0) | up(y -. 5.0) continue Rise
        unless up(y -. 7.0) then Stop
    | Fall -> do der z = -1.0 and der w = 0.0 init 1.0 until up(-. z) continue Rise
    | Stop -> do z = 0.0 and w = 3.0 done
    end
    and reset der r = 1.0 init 0.0 and s = r +. 1.0 and automaton Only -> do t = s done every up(r -. 4.0) | up(free)
";

#[test]
fn every_construct_is_accepted(rt: HostRuntime) -> Result<(), Fail> {
    let form = flat(rt.alloc(), EVERY_CONSTRUCT)?;
    assert_eq!(rt; form.ins.len(), 3);
    assert_eq!(rt; form.outs.len(), 6);
    Ok(())
}
