// Statements that are skipped, and what begins as they do.

/// Whole ones.
pub const SKIPPED: &[u8] = br#"
{ Contract() } $ 0 $ {skip(Ident Contract,Mark (,Mark ))@2-12} rest 0
{ Contract(a) } $ 0 $ {skip(Ident Contract,Mark (,Ident a,Mark ))@2-13} rest 0
{ Invariant(a) } $ 0 $ {skip(Ident Invariant,Mark (,Ident a,Mark ))@2-14} rest 0
{ Invariant() } $ 0 $ {skip(Ident Invariant,Mark (,Mark ))@2-13} rest 0
{ Contract(a, b) } $ 0 $ {skip(Ident Contract,Mark (,Ident a,Mark ,,Ident b,Mark ))@2-16} rest 0
{ Contract(a; b) } $ 0 $ {skip(Ident Contract,Mark (,Ident a,Ident b,Mark ))@2-16} rest 0
{ Contract(;a;) } $ 0 $ {skip(Ident Contract,Mark (,Ident a,Mark ))@2-15} rest 0
{ Contract (a) } $ 0 $ {skip(Ident Contract,Mark (,Ident a,Mark ))@2-14} rest 0
{ Contract(a b c) } $ 0 $ {skip(Ident Contract,Mark (,Ident a,Ident b,Ident c,Mark ))@2-17} rest 0
{ Contract((a)) } $ 0 $ {skip(Ident Contract,Mark (,Mark (,Ident a,Mark ),Mark ))@2-15} rest 0
{ Contract([a]) } $ 0 $ {skip(Ident Contract,Mark (,Mark [,Ident a,Mark ],Mark ))@2-15} rest 0
{ Contract({a}) } $ 0 $ {skip(Ident Contract,Mark (,Mark {,Ident a,Mark },Mark ))@2-15} rest 0
{ Contract({ a; b }) } $ 0 $ {skip(Ident Contract,Mark (,Mark {,Ident a,Separator ,Ident b,Mark },Mark ))@2-20} rest 0
{ Contract(([{()}])) } $ 0 $ {skip(Ident Contract,Mark (,Mark (,Mark [,Mark {,Mark (,Mark ),Mark },Mark ],Mark ),Mark ))@2-20} rest 0
{ Contract(,) } $ 0 $ {skip(Ident Contract,Mark (,Mark ,,Mark ))@2-13} rest 0
{ Contract(=) } $ 0 $ {skip(Ident Contract,Mark (,Mark =,Mark ))@2-13} rest 0
{ Contract(=> <- : _ . = @) } $ 0 $ {skip(Ident Contract,Mark (,Mark =>,Mark <-,Mark :,Mark _,Mark .,Mark =,Mark @,Mark ))@2-27} rest 0
{ Contract(if else match case => val var while for return this) } $ 0 $ {skip(Ident Contract,Mark (,Word if,Word else,Word match,Word case,Mark =>,Word val,Word var,Word while,Word for,Word return,Word this,Mark ))@2-63} rest 0
{ Contract(case a => b) } $ 0 $ {skip(Ident Contract,Mark (,Word case,Ident a,Mark =>,Ident b,Mark ))@2-23} rest 0
{ Contract({ case a; => b; c }) } $ 0 $ {skip(Ident Contract,Mark (,Mark {,Word case,Ident a,Mark =>,Ident b,Separator ,Ident c,Mark },Mark ))@2-31} rest 0
{ Contract(1 "a" 'a' s"a" l"a" 'a) } $ 0 $ {skip(Ident Contract,Mark (,Number 1,Quoted "a",Letter 'a',Prefixed s"a",Prefixed l"a",Symbol 'a,Mark ))@2-34} rest 0
{ Contract(def class) } $ 0 $ {skip(Ident Contract,Mark (,Word def,Word class,Mark ))@2-21} rest 0
{ Contract(+ - * / ! ~ # ? ::) } $ 0 $ {skip(Ident Contract,Mark (,Operator +,Operator -,Operator *,Operator /,Operator !,Operator ~,Operator #,Operator ?,Operator ::,Mark ))@2-30} rest 0
{ Contract(a = b) } $ 0 $ {skip(Ident Contract,Mark (,Ident a,Mark =,Ident b,Mark ))@2-17} rest 0
{ Contract(Requires(a), Ensures(b)) } $ 0 $ {skip(Ident Contract,Mark (,Ident Requires,Mark (,Ident a,Mark ),Mark ,,Ident Ensures,Mark (,Ident b,Mark ),Mark ))@2-35} rest 0
{ Contract(a); b } $ 0 $ {skip(Ident Contract,Mark (,Ident a,Mark ))@2-13;call(b@15-16)@15-16} rest 0
{ Invariant(a); Contract(b) } $ 0 $ {skip(Ident Invariant,Mark (,Ident a,Mark ))@2-14;skip(Ident Contract,Mark (,Ident b,Mark ))@16-27} rest 0
{ Contract(Contract(a)) } $ 0 $ {skip(Ident Contract,Mark (,Ident Contract,Mark (,Ident a,Mark ),Mark ))@2-23} rest 0
{ Contract } $ 0 $ {call(Contract@2-10)@2-10} rest 0
{ Invariant } $ 0 $ {call(Invariant@2-11)@2-11} rest 0
{ Contract; a } $ 0 $ {call(Contract@2-10)@2-10;call(a@12-13)@12-13} rest 0
{ Contract; (a) } $ 0 $ {call(Contract@2-10)@2-10;call(paren(a@13-14)@12-15)@12-15} rest 0
{ Contract.a } $ 0 $ {call(select(Contract@2-10 a)@2-12)@2-12} rest 0
{ Contract.a(b) } $ 0 $ {call(apply(select(Contract@2-10 a)@2-12;b@13-14)@2-15)@2-15} rest 0
{ Contract[a] } $ 0 $ {call(given(Contract@2-10;a@11-12)@2-13)@2-13} rest 0
{ Contract[a](b) } $ 0 $ {call(apply(given(Contract@2-10;a@11-12)@2-13;b@14-15)@2-16)@2-16} rest 0
{ Contract + a } $ 0 $ {call(infix(Contract@2-10 + a@13-14)@2-14)@2-14} rest 0
{ Contract + Contract(a) } $ 0 $ {call(infix(Contract@2-10 + apply(Contract@13-21;a@22-23)@13-24)@2-24)@2-24} rest 0
{ a + Contract(b) } $ 0 $ {call(infix(a@2-3 + apply(Contract@6-14;b@15-16)@6-17)@2-17)@2-17} rest 0
{ (Contract)(a) } $ 0 $ {call(apply(paren(Contract@3-11)@2-12;a@13-14)@2-15)@2-15} rest 0
{ (Contract(a)) } $ 0 $ {call(paren(apply(Contract@3-11;a@12-13)@3-14)@2-15)@2-15} rest 0
{ -Contract(a) } $ 0 $ {call(prefix(- apply(Contract@3-11;a@12-13)@3-14)@2-14)@2-14} rest 0
{ a(Contract(b)) } $ 0 $ {call(apply(a@2-3;apply(Contract@4-12;b@13-14)@4-15)@2-16)@2-16} rest 0
{ l"a" } $ 0 $ {skip(Prefixed l"a")@2-6} rest 0
{ l"a"; b } $ 0 $ {skip(Prefixed l"a")@2-6;call(b@8-9)@8-9} rest 0
{ l"" } $ 0 $ {skip(Prefixed l"")@2-5} rest 0
{ l"a"; l"b" } $ 0 $ {skip(Prefixed l"a")@2-6;skip(Prefixed l"b")@8-12} rest 0
{ (l"a") } $ 0 $ {call(paren(literal(Prefixed l"a")@3-7)@2-8)@2-8} rest 0
{ -l"a" } $ 0 $ {call(prefix(- literal(Prefixed l"a")@3-7)@2-7)@2-7} rest 0
{ a(l"b") } $ 0 $ {call(apply(a@2-3;literal(Prefixed l"b")@4-8)@2-9)@2-9} rest 0
{ a + l"b" } $ 0 $ {call(infix(a@2-3 + literal(Prefixed l"b")@6-10)@2-10)@2-10} rest 0
{ val a = l"b" } $ 0 $ {val(a=literal(Prefixed l"b")@10-14)@2-14} rest 0
{ l } $ 0 $ {call(l@2-3)@2-3} rest 0
{ l(a) } $ 0 $ {call(apply(l@2-3;a@4-5)@2-6)@2-6} rest 0
{ l = a } $ 0 $ {assign(l@2-3=a@6-7)@2-7} rest 0
{ L"a" } $ 0 $ {call(literal(Prefixed L"a")@2-6)@2-6} rest 0
{ ll"a" } $ 0 $ {call(literal(Prefixed ll"a")@2-7)@2-7} rest 0
{ s"a".b } $ 0 $ {call(select(literal(Prefixed s"a")@2-6 b)@2-8)@2-8} rest 0
{ s"a" = b } $ 0 $ {assign(literal(Prefixed s"a")@2-6=b@9-10)@2-10} rest 0
{ s"a" + b } $ 0 $ {call(infix(literal(Prefixed s"a")@2-6 + b@9-10)@2-10)@2-10} rest 0
"#;

/// Broken ones.
pub const BROKEN: &[u8] = br#"
{ Contract( $ 0 $ G1 at 11
{ Contract( } $ 0 $ G1 at 12
{ Contract(a $ 0 $ G1 at 12
{ Contract(a } $ 0 $ G1 at 13
{ Contract(a] } $ 0 $ G1 at 12
{ Contract(a} } $ 0 $ G1 at 12
{ Contract([a) } $ 0 $ G1 at 13
{ Contract([a)] } $ 0 $ G1 at 13
{ Contract({a) } $ 0 $ G1 at 13
{ Contract((a) } $ 0 $ G1 at 15
{ Contract((a] } $ 0 $ G1 at 13
{ Contract(a) $ 0 $ G1 at 13
{ Contract(a)) } $ 0 $ G1 at 13
{ Contract(a) b } $ 0 $ G1 at 14
{ Contract(a).b } $ 0 $ G1 at 13
{ Contract(a)(b) } $ 0 $ G1 at 13
{ Contract(a)[b] } $ 0 $ G1 at 13
{ Contract(a) = b } $ 0 $ G1 at 14
{ Contract(a) + b } $ 0 $ G1 at 14
{ Contract(a) match { case b => } } $ 0 $ G1 at 14
{ Contract(a){ } } $ 0 $ G1 at 13
{ Contract(a), b } $ 0 $ G1 at 13
{ Invariant(a).b = c } $ 0 $ G1 at 14
{ Contract(a) else } $ 0 $ G1 at 14
{ Contract() () } $ 0 $ G1 at 13
{ Contract[a $ 0 $ G1 at 12
{ Contract. $ 0 $ G1 at 11
{ Contract + $ 0 $ G1 at 12
{ Contract { $ 0 $ G1 at 11
{ Contract { a } } $ 0 $ G1 at 11
{ Contract Contract } $ 0 $ G1 at 11
{ Contract - $ 0 $ G1 at 12
{ Contract a } $ 0 $ G1 at 11
{ Contract =  $ 0 $ G1 at 13
{ Contract a(b) } $ 0 $ G1 at 11
{ l"a" b } $ 0 $ G1 at 7
{ l"a".b } $ 0 $ G1 at 6
{ l"a"(b) } $ 0 $ G1 at 6
{ l"a"[b] } $ 0 $ G1 at 6
{ l"a" = b } $ 0 $ G1 at 7
{ l"a" + b } $ 0 $ G1 at 7
{ l"a" match { case b => } } $ 0 $ G1 at 7
{ l"a", } $ 0 $ G1 at 6
{ l"a" l"b" } $ 0 $ G1 at 7
{ l"a" $ 0 $ G1 at 6
{ l"a"; $ 0 $ G1 at 7
{ l"a" }} $ 0 $ {skip(Prefixed l"a")@2-6} rest 1
{ l"a" { } } $ 0 $ G1 at 7
{ l"a" else } $ 0 $ G1 at 7
{ if (a) l"b" } $ 0 $ G1 at 14
{ if (a) Contract(b) } $ 0 $ G1 at 21
{ Contract(a) : b } $ 0 $ G1 at 14
{ Contract(] $ 0 $ G1 at 11
{ Contract(}) $ 0 $ G1 at 11
{ Contract(;) $ 0 $ G1 at 13
{ Contract(a;b $ 0 $ G1 at 14
{ val a = Contract( } $ 0 $ G1 at 20
{ Contract + l"a" b } $ 0 $ G1 at 18
{ a(Contract( } $ 0 $ G1 at 14
{ Contract(Contract(a) } $ 0 $ G1 at 23
"#;
