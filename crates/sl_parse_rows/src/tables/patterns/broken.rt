// Patterns that are none.

/// Where no pattern goes on.
pub const WRONG: &[u8] = br#"
x match { case  => } $ 0 $ G1 at 16
x match { case _.a => } $ 0 $ G1 at 16
x match { case _(a) => } $ 0 $ G1 at 16
x match { case _ a => } $ 0 $ G1 at 17
x match { case _ : => } $ 0 $ G1 at 19
x match { case _ : 1 => } $ 0 $ G1 at 19
x match { case _ : a b => } $ 0 $ G1 at 21
x match { case _ : a(b) => } $ 0 $ G1 at 20
x match { case _ : _ => } $ 0 $ G1 at 19
x match { case _ = a => } $ 0 $ G1 at 17
x match { case a : => } $ 0 $ G1 at 19
x match { case a : 1 => } $ 0 $ G1 at 19
x match { case a : _ => } $ 0 $ G1 at 19
x match { case a : b : c => } $ 0 $ G1 at 21
x match { case a : b(c) => } $ 0 $ G1 at 20
x match { case a : b[ => } $ 0 $ G1 at 22
x match { case a : b[] => } $ 0 $ G1 at 21
x match { case a : b[c => } $ 0 $ G1 at 23
x match { case a. => } $ 0 $ G1 at 18
x match { case a.1 => } $ 0 $ G1 at 17
x match { case a._ => } $ 0 $ G1 at 17
x match { case a."b" => } $ 0 $ G1 at 17
x match { case a.b : c => } $ 0 $ G1 at 19
x match { case a.b. => } $ 0 $ G1 at 20
x match { case a.b _ => } $ 0 $ G1 at 19
x match { case a.this => } $ 0 $ G1 at 17
x match { case a( => } $ 0 $ G1 at 18
x match { case a(,) => } $ 0 $ G1 at 17
x match { case a(b => } $ 0 $ G1 at 19
x match { case a(b, => } $ 0 $ G1 at 20
x match { case a(b,) => } $ 0 $ G1 at 19
x match { case a(,b) => } $ 0 $ G1 at 17
x match { case a(b c) => } $ 0 $ G1 at 19
x match { case a(b;c) => } $ 0 $ G1 at 19
x match { case a(b)(c) => } $ 0 $ G1 at 19
x match { case a(b).c => } $ 0 $ G1 at 19
x match { case a(b)[c] => } $ 0 $ G1 at 19
x match { case a(b) : c => } $ 0 $ G1 at 20
x match { case a()() => } $ 0 $ G1 at 18
x match { case a[b] => } $ 0 $ G1 at 16
x match { case a[b](c) => } $ 0 $ G1 at 16
x match { case a(b + c) => } $ 0 $ G1 at 19
x match { case a(b = c) => } $ 0 $ G1 at 19
x match { case a((b)) => } $ 0 $ G1 at 17
x match { case a(b | c) => } $ 0 $ G1 at 19
x match { case a(-) => } $ 0 $ G1 at 18
x match { case a(-b) => } $ 0 $ G1 at 18
x match { case a(1 + 2) => } $ 0 $ G1 at 19
x match { case a(b : ) => } $ 0 $ G1 at 21
x match { case a(b.) => } $ 0 $ G1 at 19
x match { case a(b] => } $ 0 $ G1 at 18
x match { case - => } $ 0 $ G1 at 17
x match { case -a => } $ 0 $ G1 at 16
x match { case -(1) => } $ 0 $ G1 at 16
x match { case - -1 => } $ 0 $ G1 at 17
x match { case -"a" => } $ 0 $ G1 at 16
x match { case -1.b => } $ 0 $ G1 at 17
x match { case -1 : a => } $ 0 $ G1 at 18
x match { case -T => } $ 0 $ G1 at 16
x match { case +1 => } $ 0 $ G1 at 15
x match { case !a => } $ 0 $ G1 at 15
x match { case ~1 => } $ 0 $ G1 at 15
x match { case 1.a => } $ 0 $ G1 at 16
x match { case 1 : a => } $ 0 $ G1 at 17
x match { case 1(a) => } $ 0 $ G1 at 16
x match { case 1 + 2 => } $ 0 $ G1 at 17
x match { case "a" : b => } $ 0 $ G1 at 19
x match { case "a".b => } $ 0 $ G1 at 18
x match { case 'a => } $ 0 $ G1 at 15
x match { case 'a'.b => } $ 0 $ G1 at 18
x match { case s"a"(b) => } $ 0 $ G1 at 19
x match { case l"a" : b => } $ 0 $ G1 at 20
x match { case T : 1 => } $ 0 $ G1 at 19
x match { case T. => } $ 0 $ G1 at 18
x match { case T( => } $ 0 $ G1 at 18
x match { case this => } $ 0 $ G1 at 15
x match { case this.a => } $ 0 $ G1 at 15
x match { case (a) => } $ 0 $ G1 at 15
x match { case [a] => } $ 0 $ G1 at 15
x match { case {a} => } $ 0 $ G1 at 15
x match { case a @ b => } $ 0 $ G1 at 17
x match { case a :: b => } $ 0 $ G1 at 17
x match { case a b => } $ 0 $ G1 at 17
x match { case a 1 => } $ 0 $ G1 at 17
x match { case a | b => } $ 0 $ G1 at 17
x match { case a & b => } $ 0 $ G1 at 17
x match { case a = b => } $ 0 $ G1 at 17
x match { case a <- b => } $ 0 $ G1 at 17
x match { case if => } $ 0 $ G1 at 15
x match { case if a => } $ 0 $ G1 at 15
x match { case val a => } $ 0 $ G1 at 15
x match { case case a => } $ 0 $ G1 at 15
x match { case = => } $ 0 $ G1 at 15
x match { case , => } $ 0 $ G1 at 15
x match { case ) => } $ 0 $ G1 at 15
x match { case .a => } $ 0 $ G1 at 15
x match { case : a => } $ 0 $ G1 at 15
"#;

/// Cut off before each token.
pub const CUT: &[u8] = br#"
 $ 0 $ G1 at 0
x  $ 0 $ x@0-1 rest 0
x match  $ 0 $ G1 at 8
x match {  $ 0 $ G1 at 10
x match { case  $ 0 $ G1 at 15
x match { case _ $ 0 $ G1 at 16
x match { case _:  $ 0 $ G1 at 18
x match { case _: a $ 0 $ G1 at 19
x match { case _: a. $ 0 $ G1 at 20
x match { case _: a.b $ 0 $ G1 at 21
x match { case _: a.b[ $ 0 $ G1 at 22
x match { case _: a.b[c $ 0 $ G1 at 23
x match { case _: a.b[c]  $ 0 $ G1 at 25
x match { case _: a.b[c] =>  $ 0 $ G1 at 28
x match { case a $ 0 $ G1 at 16
x match { case a:  $ 0 $ G1 at 18
x match { case a: b $ 0 $ G1 at 19
x match { case a: b[ $ 0 $ G1 at 20
x match { case a: b[c $ 0 $ G1 at 21
x match { case a: b[c, $ 0 $ G1 at 22
x match { case a: b[c,d $ 0 $ G1 at 23
x match { case a: b[c,d]  $ 0 $ G1 at 25
x match { case a: b[c,d] =>  $ 0 $ G1 at 28
x match { case - $ 0 $ G1 at 16
x match { case -1  $ 0 $ G1 at 18
x match { case -1 =>  $ 0 $ G1 at 21
x match { case a. $ 0 $ G1 at 17
x match { case a.b $ 0 $ G1 at 18
x match { case a.b. $ 0 $ G1 at 19
x match { case a.b.c  $ 0 $ G1 at 21
x match { case a.b.c =>  $ 0 $ G1 at 24
x match { case a.b( $ 0 $ G1 at 19
x match { case a.b(c $ 0 $ G1 at 20
x match { case a.b(c,  $ 0 $ G1 at 22
x match { case a.b(c, d $ 0 $ G1 at 23
x match { case a.b(c, d:  $ 0 $ G1 at 25
x match { case a.b(c, d: e $ 0 $ G1 at 26
x match { case a.b(c, d: e,  $ 0 $ G1 at 28
x match { case a.b(c, d: e, _ $ 0 $ G1 at 29
x match { case a.b(c, d: e, _)  $ 0 $ G1 at 31
x match { case a.b(c, d: e, _) =>  $ 0 $ G1 at 34
x match { case T $ 0 $ G1 at 16
x match { case T( $ 0 $ G1 at 17
x match { case T(F $ 0 $ G1 at 18
x match { case T(F)  $ 0 $ G1 at 20
x match { case T(F) =>  $ 0 $ G1 at 23
x match { case a( $ 0 $ G1 at 17
x match { case a(b $ 0 $ G1 at 18
x match { case a(b( $ 0 $ G1 at 19
x match { case a(b(c $ 0 $ G1 at 20
x match { case a(b(c) $ 0 $ G1 at 21
x match { case a(b(c),  $ 0 $ G1 at 23
x match { case a(b(c), - $ 0 $ G1 at 24
x match { case a(b(c), -1 $ 0 $ G1 at 25
x match { case a(b(c), -1)  $ 0 $ G1 at 27
x match { case a(b(c), -1) =>  $ 0 $ G1 at 30
"#;

/// With each token left out.
pub const MISSING: &[u8] = br#"
 match { case _: a.b[c] => } $ 0 $ G1 at 1
x  { case _: a.b[c] => } $ 0 $ x@0-1 rest 12
x match  case _: a.b[c] => } $ 0 $ G1 at 9
x match {  _: a.b[c] => } $ 0 $ G1 at 11
x match { case : a.b[c] => } $ 0 $ G1 at 15
x match { case _ a.b[c] => } $ 0 $ G1 at 17
x match { case _: .b[c] => } $ 0 $ G1 at 18
x match { case _: ab[c] => } $ 0 $ match(x@0-1;case(any(ab[c@21-22]@18-23)@15-23=>))@0-28 rest 0
x match { case _: a.[c] => } $ 0 $ G1 at 20
x match { case _: a.bc] => } $ 0 $ G1 at 22
x match { case _: a.b[] => } $ 0 $ G1 at 22
x match { case _: a.b[c => } $ 0 $ G1 at 24
x match { case _: a.b[c]  } $ 0 $ G1 at 26
x match { case _: a.b[c] =>  $ 0 $ G1 at 28
 match { case a: b[c,d] => } $ 0 $ G1 at 1
x  { case a: b[c,d] => } $ 0 $ x@0-1 rest 12
x match  case a: b[c,d] => } $ 0 $ G1 at 9
x match {  a: b[c,d] => } $ 0 $ G1 at 11
x match { case : b[c,d] => } $ 0 $ G1 at 15
x match { case a b[c,d] => } $ 0 $ G1 at 17
x match { case a: [c,d] => } $ 0 $ G1 at 18
x match { case a: bc,d] => } $ 0 $ G1 at 20
x match { case a: b[,d] => } $ 0 $ G1 at 20
x match { case a: b[cd] => } $ 0 $ match(x@0-1;case(bind(a:b[cd@20-22]@18-23)@15-23=>))@0-28 rest 0
x match { case a: b[c,] => } $ 0 $ G1 at 22
x match { case a: b[c,d => } $ 0 $ G1 at 24
x match { case a: b[c,d]  } $ 0 $ G1 at 26
x match { case a: b[c,d] =>  $ 0 $ G1 at 28
 match { case -1 => } $ 0 $ G1 at 1
x  { case -1 => } $ 0 $ x@0-1 rest 6
x match  case -1 => } $ 0 $ G1 at 9
x match {  -1 => } $ 0 $ G1 at 11
x match { case 1 => } $ 0 $ match(x@0-1;case(literal(Number 1)@15-16=>))@0-21 rest 0
x match { case - => } $ 0 $ G1 at 17
x match { case -1  } $ 0 $ G1 at 19
x match { case -1 =>  $ 0 $ G1 at 21
 match { case a.b.c => } $ 0 $ G1 at 1
x  { case a.b.c => } $ 0 $ x@0-1 rest 9
x match  case a.b.c => } $ 0 $ G1 at 9
x match {  a.b.c => } $ 0 $ G1 at 11
x match { case .b.c => } $ 0 $ G1 at 15
x match { case ab.c => } $ 0 $ match(x@0-1;case(constant(ab.c)@15-19=>))@0-24 rest 0
x match { case a..c => } $ 0 $ G1 at 17
x match { case a.bc => } $ 0 $ match(x@0-1;case(constant(a.bc)@15-19=>))@0-24 rest 0
x match { case a.b. => } $ 0 $ G1 at 20
x match { case a.b.c  } $ 0 $ G1 at 22
x match { case a.b.c =>  $ 0 $ G1 at 24
 match { case a.b(c, d: e, _) => } $ 0 $ G1 at 1
x  { case a.b(c, d: e, _) => } $ 0 $ x@0-1 rest 16
x match  case a.b(c, d: e, _) => } $ 0 $ G1 at 9
x match {  a.b(c, d: e, _) => } $ 0 $ G1 at 11
x match { case .b(c, d: e, _) => } $ 0 $ G1 at 15
x match { case ab(c, d: e, _) => } $ 0 $ match(x@0-1;case(class(ab;c@18-19,bind(d:e@24-25)@21-25,any()@27-28)@15-29=>))@0-34 rest 0
x match { case a.(c, d: e, _) => } $ 0 $ G1 at 17
x match { case a.bc, d: e, _) => } $ 0 $ G1 at 19
x match { case a.b(, d: e, _) => } $ 0 $ G1 at 19
x match { case a.b(c d: e, _) => } $ 0 $ G1 at 21
x match { case a.b(c, : e, _) => } $ 0 $ G1 at 22
x match { case a.b(c, d e, _) => } $ 0 $ G1 at 24
x match { case a.b(c, d: , _) => } $ 0 $ G1 at 25
x match { case a.b(c, d: e _) => } $ 0 $ G1 at 27
x match { case a.b(c, d: e, ) => } $ 0 $ G1 at 28
x match { case a.b(c, d: e, _ => } $ 0 $ G1 at 30
x match { case a.b(c, d: e, _)  } $ 0 $ G1 at 32
x match { case a.b(c, d: e, _) =>  $ 0 $ G1 at 34
 match { case T(F) => } $ 0 $ G1 at 1
x  { case T(F) => } $ 0 $ x@0-1 rest 8
x match  case T(F) => } $ 0 $ G1 at 9
x match {  T(F) => } $ 0 $ G1 at 11
x match { case (F) => } $ 0 $ G1 at 15
x match { case TF) => } $ 0 $ G1 at 17
x match { case T() => } $ 0 $ match(x@0-1;case(class(T;)@15-18=>))@0-23 rest 0
x match { case T(F => } $ 0 $ G1 at 19
x match { case T(F)  } $ 0 $ G1 at 21
x match { case T(F) =>  $ 0 $ G1 at 23
 match { case a(b(c), -1) => } $ 0 $ G1 at 1
x  { case a(b(c), -1) => } $ 0 $ x@0-1 rest 14
x match  case a(b(c), -1) => } $ 0 $ G1 at 9
x match {  a(b(c), -1) => } $ 0 $ G1 at 11
x match { case (b(c), -1) => } $ 0 $ G1 at 15
x match { case ab(c), -1) => } $ 0 $ G1 at 20
x match { case a((c), -1) => } $ 0 $ G1 at 17
x match { case a(bc), -1) => } $ 0 $ G1 at 20
x match { case a(b(), -1) => } $ 0 $ match(x@0-1;case(class(a;class(b;)@17-20,literal(-Number 1)@22-24)@15-25=>))@0-30 rest 0
x match { case a(b(c, -1) => } $ 0 $ G1 at 26
x match { case a(b(c) -1) => } $ 0 $ G1 at 22
x match { case a(b(c), 1) => } $ 0 $ match(x@0-1;case(class(a;class(b;c@19-20)@17-21,literal(Number 1)@23-24)@15-25=>))@0-30 rest 0
x match { case a(b(c), -) => } $ 0 $ G1 at 24
x match { case a(b(c), -1 => } $ 0 $ G1 at 26
x match { case a(b(c), -1)  } $ 0 $ G1 at 28
x match { case a(b(c), -1) =>  $ 0 $ G1 at 30
"#;
