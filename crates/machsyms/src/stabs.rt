//! The names that `nm` prints for debugging entries.

ghost use Rattle.std.specs.Prelude.{◌≡◌, option_map};
ghost use Rattle.machsyms.specs.Stabs.{stab_name};

use goblin_mach::symbols::{
    N_AST, N_BCOMM, N_BINCL, N_BNSYM, N_ECOML, N_ECOMM, N_EINCL, N_ENSYM, N_ENTRY, N_EXCL, N_FNAME,
    N_FUN, N_GSYM, N_LBRAC, N_LCSYM, N_LENG, N_LSYM, N_OLEVEL, N_OPT, N_OSO, N_PARAMS, N_PC,
    N_PSYM, N_RBRAC, N_RSYM, N_SLINE, N_SO, N_SOL, N_SSYM, N_STSYM, N_VERSION,
};

/// Returns the name of a type of debugging entry, if it has one.
pub fn stab_name(n_type: u8) -> Option<&'static str>
    ensures { option_map (λ name. name.now) result ≡ stab_name n_type }
{
    Some(match n_type {
        N_GSYM => "GSYM",
        N_FNAME => "FNAME",
        N_FUN => "FUN",
        N_STSYM => "STSYM",
        N_LCSYM => "LCSYM",
        N_BNSYM => "BNSYM",
        N_PC => "PC",
        N_AST => "AST",
        N_OPT => "OPT",
        N_RSYM => "RSYM",
        N_SLINE => "SLINE",
        N_ENSYM => "ENSYM",
        N_SSYM => "SSYM",
        N_SO => "SO",
        N_OSO => "OSO",
        N_LSYM => "LSYM",
        N_BINCL => "BINCL",
        N_SOL => "SOL",
        N_PARAMS => "PARAM",
        N_VERSION => "VERS",
        N_OLEVEL => "OLEV",
        N_PSYM => "PSYM",
        N_EINCL => "EINCL",
        N_ENTRY => "ENTRY",
        N_LBRAC => "LBRAC",
        N_EXCL => "EXCL",
        N_RBRAC => "RBRAC",
        N_BCOMM => "BCOMM",
        N_ECOMM => "ECOMM",
        N_ECOML => "ECOML",
        N_LENG => "LENG",
        _ => return None,
    })
}
