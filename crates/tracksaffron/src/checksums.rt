// What `exports_checks` answers, for C.
ghost use Rattle.std.specs.Prelude.{◌≡◌};
ghost use Rattle.checks.specs.Crc.{crc_of};
ghost use Rattle.sums.specs.Sums.{total, closing};

// CRC-16/XMODEM of the bytes.
#[unsafe(no_mangle)]
pub extern "C" fn tracksaffron_crc16(s: &[u8]) -> u16
    ensures { result ≡ crc_of s.now }
{
    exports_checks::tracksaffron_crc16(s)
}

// The byte that brings the sum of the bytes to 0 modulo 256.
#[unsafe(no_mangle)]
pub extern "C" fn tracksaffron_close256(s: &[u8]) -> u8
    ensures { result ≡ closing 256 (total s.now) }
{
    exports_checks::tracksaffron_close256(s)
}

// The number that brings the sum of the bytes to 0 modulo 65,536.
#[unsafe(no_mangle)]
pub extern "C" fn tracksaffron_close65536(s: &[u8]) -> u16
    ensures { result ≡ closing 65536 (total s.now) }
{
    exports_checks::tracksaffron_close65536(s)
}
