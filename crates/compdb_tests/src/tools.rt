//! Databases as build systems write them, made with the tools themselves; only the folder is another.
use crate::commands::make;
use std::test::Fail;

/// CMake 3.25.1 with Ninja, of two sources with a definition that holds a text, and a folder of the system.
const CMAKE_NINJA: &[u8] = br#"[
{
  "directory": "/home/u/heat/build",
  "command": "/usr/bin/c++ -DGPU=1 -DNAME=\"\\\"a b\\\"\" -I/home/u/heat/inc -isystem /opt/x/include -o CMakeFiles/heat.dir/src/main.cpp.o -c /home/u/heat/src/main.cpp",
  "file": "/home/u/heat/src/main.cpp"
},
{
  "directory": "/home/u/heat/build",
  "command": "/usr/bin/cc -DGPU=1 -DNAME=\"\\\"a b\\\"\" -I/home/u/heat/inc -isystem /opt/x/include -o CMakeFiles/heat.dir/src/grid.c.o -c /home/u/heat/src/grid.c",
  "file": "/home/u/heat/src/grid.c"
}
]"#;

/// CMake 3.25.1 with Make, of the same project: two spaces stand before `-o`.
const CMAKE_MAKE: &[u8] = br#"[
{
  "directory": "/home/u/heat/build",
  "command": "/usr/bin/c++ -DGPU=1 -DNAME=\"\\\"a b\\\"\" -I/home/u/heat/inc -isystem /opt/x/include  -o CMakeFiles/heat.dir/src/main.cpp.o -c /home/u/heat/src/main.cpp",
  "file": "/home/u/heat/src/main.cpp"
},
{
  "directory": "/home/u/heat/build",
  "command": "/usr/bin/cc -DGPU=1 -DNAME=\"\\\"a b\\\"\" -I/home/u/heat/inc -isystem /opt/x/include  -o CMakeFiles/heat.dir/src/grid.c.o -c /home/u/heat/src/grid.c",
  "file": "/home/u/heat/src/grid.c"
}
]"#;

/// Meson 1.0.1, of the same sources: single quotes, and names relative to the folder of the build.
const MESON: &[u8] = br#"[
  {
    "directory": "/home/u/heat/build",
    "command": "c++ -Iheat.p -I. -I.. -I../inc -fdiagnostics-color=always -D_FILE_OFFSET_BITS=64 -Wall -Winvalid-pch -O0 -g '-DNAME=\"a b\"' -MD -MQ heat.p/main.cpp.o -MF heat.p/main.cpp.o.d -o heat.p/main.cpp.o -c ../main.cpp",
    "file": "../main.cpp",
    "output": "heat.p/main.cpp.o"
  },
  {
    "directory": "/home/u/heat/build",
    "command": "cc -Iheat.p -I. -I.. -I../inc -fdiagnostics-color=always -D_FILE_OFFSET_BITS=64 -Wall -Winvalid-pch -O0 -g '-DNAME=\"a b\"' -DGPU=1 -UHOST -MD -MQ heat.p/grid.c.o -MF heat.p/grid.c.o.d -o heat.p/grid.c.o -c ../grid.c",
    "file": "../grid.c",
    "output": "heat.p/grid.c.o"
  }
]
"#;

/// Bear 3.1.1, which lists the arguments one by one.
const BEAR: &[u8] = br#"[
  {
    "arguments": [
      "/usr/bin/cc",
      "-DGPU",
      "-DNAME=\"a b\"",
      "-Iinc",
      "-include",
      "pre.h",
      "-c",
      "-o",
      "grid.o",
      "grid.c"
    ],
    "directory": "/home/u/heat",
    "file": "/home/u/heat/grid.c",
    "output": "/home/u/heat/grid.o"
  },
  {
    "arguments": [
      "/usr/bin/c++",
      "-isystem",
      "/opt/x/include",
      "-c",
      "main.cpp"
    ],
    "directory": "/home/u/heat",
    "file": "/home/u/heat/main.cpp"
  }
]
"#;

/// What the projects of CMake compile, line by line.
const CMAKE_MADE: &[u8] = br#"main src/main.cpp
in C++
define GPU=1
define NAME="a b"
work /home/u/heat/build
angle /home/u/heat/inc
angle /opt/x/include
root /home/u/heat
main src/grid.c
in C
define GPU=1
define NAME="a b"
work /home/u/heat/build
angle /home/u/heat/inc
angle /opt/x/include
root /home/u/heat
"#;

/// What that of Meson compiles.
const MESON_MADE: &[u8] = br#"main main.cpp
in C++
define _FILE_OFFSET_BITS=64
define NAME="a b"
work /home/u/heat/build
angle /home/u/heat/build/heat.p
angle /home/u/heat/build
angle /home/u/heat
angle /home/u/heat/inc
root /home/u/heat
main grid.c
in C
define _FILE_OFFSET_BITS=64
define NAME="a b"
define GPU=1
undef HOST
work /home/u/heat/build
angle /home/u/heat/build/heat.p
angle /home/u/heat/build
angle /home/u/heat
angle /home/u/heat/inc
root /home/u/heat
"#;

/// What was compiled under Bear.
const BEAR_MADE: &[u8] = br#"main grid.c
in C
define GPU
define NAME="a b"
work /home/u/heat
angle /home/u/heat/inc
forced pre.h
root /home/u/heat
main main.cpp
in C++
work /home/u/heat
angle /opt/x/include
root /home/u/heat
"#;

/// Who wrote a database, the file, and what its entries make.
const BUILDS: &[(&str, &[u8], &[u8])] = &[
    ("CMake with Ninja", CMAKE_NINJA, CMAKE_MADE),
    ("CMake with Make", CMAKE_MAKE, CMAKE_MADE),
    ("Meson", MESON, MESON_MADE),
    ("Bear", BEAR, BEAR_MADE),
];

#[test]
fn databases_of_build_systems_are_read(rt: HostRuntime) -> Result<(), Fail> {
    for row in BUILDS {
        assert!(rt;
            make(rt.alloc(), row.1, b"/home/u/heat", row.2)?,
            "{}",
            row.0
        );
    }
    Ok(())
}
