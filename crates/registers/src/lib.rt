// The configuration registers: each a type of its own with its reset value and its writable bits.
#![tactic(auto)]

ghost use Rattle.std.specs.Prelude.{◌≡◌, ◌%◌, ◌<◌, ◌≤◌, eqb, length};
ghost use Rattle.base.specs.Bytes.{put};
ghost use Rattle.registers.specs.Registers.{masked, forbidden008, forbidden010, write008, write010, write020, readied, fresh004, fresh008, fresh010, fresh020, size_of, crc_checked, on0, on1, payload_size, read_size, operating_count, fresh_config, read_at_value, forbidden_at, write_at, reachable008, reachable010, reachable020, reachable};
ghost use Rattle.registers.specs.Layout.{config_bytes, config_in};

// Stays: a type for each register (docs/DECISIONS.md, 74), with its own fresh, write, on and test of what it can hold. With the numbers as const parameters a
// wrong reset value is another type, so that no function refuses it (must-fail/reset_values.edit); a trait is no plainer: each number twice, as constant and
// ghost member, and a constructor and a reader, for bodies of one line.

// Device identification.
#[derive(Clone, Copy)]
pub struct Reg004 {
    pub value: u32,
}

// General capabilities and configurations.
#[derive(Clone, Copy)]
pub struct Reg008 {
    pub value: u32,
}

// Channel 0 (peripheral).
#[derive(Clone, Copy)]
pub struct Reg010 {
    pub value: u32,
}

// Channel 1 (virtual wires).
#[derive(Clone, Copy)]
pub struct Reg020 {
    pub value: u32,
}

// The registers that hold state.
#[derive(Clone, Copy)]
pub struct Config {
    pub r008: Reg008,
    pub r010: Reg010,
    pub r020: Reg020,
}

// The bits of `val` where the mask has ones, those of `old` elsewhere.
fn write_masked(old: u32, val: u32, mask: u32) -> u32
    ensures { result ≡ masked old val mask }
{
    (old & !mask) | (val & mask)
}

// Bit 1 (ready) made equal to bit 0 (enable).
fn with_ready(v: u32) -> u32
    ensures { result ≡ readied v }
{
    write_masked(v, 2 * (v % 2), 2)
}

// Bit 0 (enable).
fn enabled(v: u32) -> bool
    ensures { result ≡ eqb (v % 2) 1 }
{
    v % 2 == 1
}

// What a payload or read request code means in bytes.
#[tactic(auto, unfolding(crate::specs::Registers::size_of))]
fn size_of(code: u32) -> u32
    requires { code < 8 }
    ensures { result ≡ size_of code }
{
    64 << code.saturating_sub(1)
}

impl Reg004 {
    pub const RESET: u32 = 0x0000_0001;

    pub const WRITABLE: u32 = 0x0000_0000;

    pub fn fresh() -> Reg004
        ensures { result ≡ fresh004 }
    {
        Reg004 { value: Self::RESET }
    }
}

impl Reg008 {
    pub const RESET: u32 = 0x030C_0003;

    pub const WRITABLE: u32 = 0xDCF0_F000;

    pub fn fresh() -> Reg008
        ensures { result ≡ fresh008 }
    {
        Reg008 { value: Self::RESET }
    }

    fn write(self, val: u32) -> Reg008
        ensures { result ≡ write008 self val }
    {
        Reg008 {
            value: write_masked(self.value, val, Self::WRITABLE),
        }
    }

    // The CRC of commands is checked.
    pub fn crc_checked(self) -> bool
        ensures { result ≡ crc_checked self }
    {
        (self.value >> 31) % 2 == 1
    }
}

impl Reg010 {
    pub const RESET: u32 = 0x0000_1133;

    pub const WRITABLE: u32 = 0x0000_7705;

    pub fn fresh() -> Reg010
        ensures { result ≡ fresh010 }
    {
        Reg010 { value: Self::RESET }
    }

    fn write(self, val: u32) -> Reg010
        ensures { result ≡ write010 self val }
    {
        Reg010 {
            value: with_ready(write_masked(self.value, val, Self::WRITABLE)),
        }
    }

    pub fn on(self) -> bool
        ensures { result ≡ on0 self }
    {
        enabled(self.value)
    }

    pub fn payload_size(self) -> u32
        ensures { result ≡ payload_size self }
    {
        size_of((self.value >> 8) % 8)
    }

    pub fn read_size(self) -> u32
        ensures { result ≡ read_size self }
    {
        size_of((self.value >> 12) % 8)
    }
}

impl Reg020 {
    pub const RESET: u32 = 0x0000_3F00;

    pub const WRITABLE: u32 = 0x003F_0001;

    pub fn fresh() -> Reg020
        ensures { result ≡ fresh020 }
    {
        Reg020 { value: Self::RESET }
    }

    fn write(self, val: u32) -> Reg020
        ensures { result ≡ write020 self val }
    {
        Reg020 {
            value: with_ready(write_masked(self.value, val, Self::WRITABLE)),
        }
    }

    pub fn on(self) -> bool
        ensures { result ≡ on1 self }
    {
        let v = self.value;
        enabled(v)
    }

    pub fn operating_count(self) -> u32
        ensures { result ≡ operating_count self }
    {
        (self.value >> 16) % 64 + 1
    }
}

fn bad008(v: u32) -> bool
    ensures { result ≡ forbidden008 v }
{
    ((v >> 26) % 4 == 3) | (4 < (v >> 20) % 8)
}

fn bad010(v: u32) -> bool
    ensures { result ≡ forbidden010 v }
{
    ((v >> 12) % 8 == 0) | (((v >> 8) % 8 == 0) | (3 < (v >> 8) % 8))
}

// A write of this value to this address is refused with number 2.
pub fn forbidden(address: u32, val: u32) -> bool
    ensures { result ≡ forbidden_at address val }
{
    match address {
        0x008 => bad008(val),
        0x010 => bad010(val),
        _ => false,
    }
}

impl Config {
    pub fn fresh() -> Config
        ensures { result ≡ fresh_config }
    {
        Config {
            r008: Reg008::fresh(),
            r010: Reg010::fresh(),
            r020: Reg020::fresh(),
        }
    }

    // The register at this address; other addresses read 0.
    pub fn read(self, address: u32) -> u32
        ensures { result ≡ read_at_value self address }
    {
        match address {
            0x004 => Reg004::RESET,
            0x008 => self.r008.value,
            0x010 => self.r010.value,
            0x020 => self.r020.value,
            _ => 0,
        }
    }

    // The value written to the register at this address; other addresses take it without effect.
    pub fn write(self, address: u32, val: u32) -> Config
        ensures { result ≡ write_at self address val }
    {
        match address {
            0x008 => Config {
                r008: self.r008.write(val),
                ..self
            },
            0x010 => Config {
                r010: self.r010.write(val),
                ..self
            },
            0x020 => Config {
                r020: self.r020.write(val),
                ..self
            },
            _ => self,
        }
    }

    // Each register holds a value that resets and accepted writes can make.
    pub fn reachable(self) -> bool
        ensures { result ≡ reachable self }
    {
        let a = self.r008.value;
        let b = self.r010.value;
        let c = self.r020.value;
        reachable_008(a) & reachable_010(b) & reachable_020(c)
    }

    fn bytes(self) -> [u8; 12]
        ensures { result ≡ config_bytes self }
    {
        let [a0, a1, a2, a3] = self.r008.value.to_le_bytes();
        let [b0, b1, b2, b3] = self.r010.value.to_le_bytes();
        let [c0, c1, c2, c3] = self.r020.value.to_le_bytes();
        [a0, a1, a2, a3, b0, b1, b2, b3, c0, c1, c2, c3]
    }

    // Their bytes at their place in `dst`; what is beside them stays.
    pub fn pack(self, dst: &mut [u8])
        requires { 12 ≤ length dst.old }
        ensures { dst.new ≡ put 0 (config_bytes self) dst.old }
    {
        base::put_at(dst, 0, &self.bytes());
    }

    // The registers whose bytes stand at their place in `b`, sound or not.
    pub fn unpack(b: &[u8]) -> Config
        requires { 12 ≤ length b.now }
        ensures { result ≡ config_in b.now }
    {
        Config {
            r008: Reg008 {
                value: base::get4(b, 0),
            },
            r010: Reg010 {
                value: base::get4(b, 4),
            },
            r020: Reg020 {
                value: base::get4(b, 8),
            },
        }
    }
}

#[tactic(auto, unfolding(crate::specs::Registers::reachable008))]
fn reachable_008(v: u32) -> bool
    ensures { result ≡ reachable008 v }
{
    let r = Reg008::fresh().write(v);
    (r.value == v) & !bad008(v)
}

#[tactic(auto, unfolding(crate::specs::Registers::reachable010))]
fn reachable_010(v: u32) -> bool
    ensures { result ≡ reachable010 v }
{
    let r = Reg010::fresh().write(v);
    (r.value == v) & !bad010(v)
}

#[tactic(auto, unfolding(crate::specs::Registers::reachable020))]
fn reachable_020(v: u32) -> bool
    ensures { result ≡ reachable020 v }
{
    let r = Reg020::fresh().write(v);
    r.value == v
}
