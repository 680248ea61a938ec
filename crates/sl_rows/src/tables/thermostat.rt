// A thermostat, and what is answered to each of its fronts.

/// The program.
pub const PROGRAM: &[u8] = br#"// #Sireum
package ctl

import org.sireum._

@enum object Mode {
  "Off"
  "Heat"
  "Cool"
}

@range(min = -40, max = 125) class Temp

@record class State(var mode: Mode.Type, var last: Temp, val hist: MSZ[Z], var at: Z, var switches: Z)

object Thermo extends App {

  val low: Temp = temp"18"
  val high: Temp = temp"24"

  @pure def next(m: Mode.Type, t: Temp): Mode.Type = {
    if (t < low) {
      return Mode.Heat
    }
    if (t > high) {
      return Mode.Cool
    }
    if (m == Mode.Heat & t < temp"20") {
      return m
    }
    return Mode.Off
  }

  def step(s: State, b: Z): Unit = {
    Contract(
      Requires(0 <= b, b <= 255),
      Modifies(s)
    )
    val t: Temp = conversions.Z.toTemp(b % 64 - 10)
    val m: Mode.Type = next(s.mode, t)
    if (m != s.mode) {
      s.switches = s.switches + 1
    }
    s.mode = m
    s.last = t
    s.hist(s.at) = conversions.Temp.toZ(t)
    s.at = (s.at + 1) % 8
  }

  def main(args: ISZ[String]): Z = {
    val s: State = State(Mode.Off, temp"0", MSZ(0, 0, 0, 0, 0, 0, 0, 0), 0, 0)
    var b: Z = Port.get()
    while (b >= 0) {
      step(s, b)
      b = Port.get()
    }
    println(s)
    return 0
  }
}
"#;

/// Up to how many of its bytes an answer stands, and the answer: the rule and the place, which is a byte or the end of the front.
pub const FRONTS: &[u8] = br#"
0 $ L1 end
9 $ L1 0
11 $ G1 end
17 $ G2 11
24 $ G1 end
29 $ G2 24
31 $ G1 end
33 $ G2 31
35 $ G1 end
40 $ G2 35
42 $ G1 end
45 $ not built
51 $ G1 end
56 $ G1 51
58 $ G1 end
63 $ G3 45
67 $ G1 end
71 $ L4 67
75 $ G1 end
80 $ L4 75
84 $ G1 end
89 $ L4 84
91 $ G1 end
94 $ not built
123 $ G1 end
127 $ G1 123
129 $ G1 end
135 $ not built
143 $ G1 end
147 $ G1 143
149 $ G1 end
154 $ G3 135
236 $ G1 end
239 $ not built
244 $ G1 239
246 $ G1 end
253 $ not built
259 $ G1 253
261 $ G1 end
265 $ not built
270 $ G1 end
272 $ G1 270
290 $ G1 end
293 $ L4 286
297 $ G1 end
299 $ G1 297
318 $ G1 end
321 $ L4 314
332 $ G1 end
334 $ G1 332
486 $ G1 end
487 $ G1 486
509 $ G1 end
512 $ L4 505
565 $ G1 end
567 $ G1 565
773 $ G1 end
774 $ G1 773
932 $ G1 end
934 $ G1 932
1006 $ G1 end
1008 $ L4 1002
1169 $ G1 end
1171 $ not built
"#;
