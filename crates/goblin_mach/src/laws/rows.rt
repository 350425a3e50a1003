//! Examples of docs/FORMAT-IMAGE.md that the definitions are checked on, as theorems.

ghost use Rattle.std.specs.Prelude.{◌≡◌, ◌∷◌, ◌++◌, [], codes, map, replicate, Ok, Err};
ghost use Rattle.mach_base.specs.declared.context.Endian.TheVariants.{Little};
ghost use Rattle.mach_base.specs.Fault.{bad_input};
ghost use Rattle.mach_base.specs.Leb128.{Spells, uleb_at};
ghost use Rattle.mach_base.specs.Record.{number_is, bytes_are};
ghost use Rattle.mach_load.specs.Commands.{uuid, segment64, load_dylib, dyld_info_only, symtab, main};
ghost use Rattle.goblin_mach.specs.Chain.{IsChain};
ghost use Rattle.goblin_mach.specs.Rows.{file_a, file_b};

/// Three ULEB128 numbers: one of 624485, the longest one of the largest number, and one that is too long.
pub fn spellings()
    ensures three_bytes { Spells (0xe5 ∷ 0x8e ∷ 0x26 ∷ []) 0 (0xe5 ∷ 0x8e ∷ 0x26 ∷ []) 624485 }
    ensures nine_ff_01 { uleb_at (replicate 9 0xff ++ 0x01 ∷ []) 0 ≡ Ok (18446744073709551615, 10) }
    ensures nine_ff_02 { uleb_at (replicate 9 0xff ++ 0x02 ∷ []) 0 ≡ Err (bad_input 10) }
{}

/// The one command of file A.
pub fn chain_of_file_a()
    ensures { IsChain Little file_a 32
        (record {
          offset = 32;
          kind = uuid;
          values =
              number_is 0x1b ∷ number_is 24 ∷ bytes_are (1 ∷ 2 ∷ 3 ∷ 4 ∷ 5 ∷ 6 ∷ 7 ∷ 8 ∷ 9 ∷ 10 ∷ 11 ∷ 12 ∷ 13 ∷ 14 ∷ 15 ∷ 16 ∷ []) ∷ [];
        } ∷ []) }
{}

/// The five commands of file B.
pub fn chain_of_file_b()
    ensures { IsChain Little file_b 32
        (record {
          offset = 0x20;
          kind = segment64;
          values =
              number_is 0x19 ∷ number_is 152 ∷ bytes_are (codes "__TEXT" ++ replicate 10 0)
              ∷ map number_is (0x100000000 ∷ 0x1000 ∷ 0 ∷ 376 ∷ 0 ∷ 0 ∷ 1 ∷ 0 ∷ []);
        }
        ∷ record { offset = 0xb8; kind = load_dylib; values = map number_is (0xc ∷ 32 ∷ 24 ∷ 0 ∷ 0 ∷ 0 ∷ []) }
        ∷ record { offset = 0xd8; kind = dyld_info_only; values = map number_is (0x80000022 ∷ 48 ∷ 0 ∷ 0 ∷ 312 ∷ 8 ∷ 0 ∷ 0 ∷ 320 ∷ 8 ∷ 328 ∷ 11 ∷ []) }
        ∷ record { offset = 0x108; kind = symtab; values = map number_is (0x2 ∷ 24 ∷ 352 ∷ 1 ∷ 368 ∷ 8 ∷ []) }
        ∷ record { offset = 0x120; kind = main; values = map number_is (0x80000028 ∷ 24 ∷ 0x138 ∷ 0 ∷ []) } ∷ []) }
{}
